// Opening, reading and writing: calls that are made again after a signal, and their results.
ghost use Rattle.std.specs.Prelude.{◌≡◌, ◌↔◌, ◌≤◌, length, take, IsOk, IsTrue};
ghost use Rattle.std.specs.Io.KnownBytes.{Appends, Keeps};
ghost use Rattle.streams.specs.Calls.{IsInterrupted, read_answer};

use crate::ReadFailed;
use std::io::{ErrorKind, Write};
use std::rt::Files;
use std::{fs, io};

// Whether a signal interrupted a call, by what it answered.
pub(crate) fn was_interrupted<T>(answer: &io::Result<T>) -> bool
    ensures { IsTrue result ↔ IsInterrupted answer.now }
{
    match answer {
        Ok(_) => false,
        Err(error) => error.kind() == ErrorKind::Interrupted,
    }
}

// Opens the file for reading, and answers it, or nothing if it can't be opened. A path that is not UTF-8 can't be.
pub(crate) fn open_file<H: Files>(files: &H, path: &[u8]) -> Option<H::File> {
    let Ok(path) = std::str::from_utf8(path) else {
        return None;
    };
    for _ in 0..u64::MAX {
        let opened = fs::open(files, path);
        if !was_interrupted(&opened) {
            return opened.ok();
        }
    }
    None
}

// Writes some of the bytes, and answers how many: none if the write failed.
fn write_some<W: Write>(writer: &mut W, bytes: &[u8]) -> usize
    ensures count { result ≤ length bytes.now }
    ensures written { Appends (W.contents writer.old) (W.contents writer.new) (take result bytes.now) }
{
    for _ in 0..u64::MAX {
        let moved = writer.write(bytes);
        if !was_interrupted(&moved) {
            return moved.unwrap_or(0);
        }
    }
    0
}

// Writes the bytes, and answers how many were written: all of them unless a write failed. std's `write_all` does not say how many
// a failed write has written, and `print` promises it.
pub(crate) fn write_all<W: Write>(writer: &mut W, bytes: &[u8]) -> usize
    ensures count { result ≤ length bytes.now }
    ensures written { Appends (W.contents writer.old) (W.contents writer.new) (take result bytes.now) }
{
    let mut done = 0;
    // Kept as a `while`: a write goes on where the one before it ended.
    while done < bytes.len() {
        let n = write_some(writer, &bytes[done..]);
        if n == 0 {
            return done;
        }
        done += n;
    }
    done
}

// Reports a failed read to the writer of errors.
pub(crate) fn read_failed<E: Write>(errors: &mut E) -> ReadFailed {
    write_all(errors, b"read failed\n");
    ReadFailed
}

// What a read answers, by what the call answered.
pub(crate) fn read_answer<E: Write>(
    errors: &mut E,
    moved: io::Result<usize>,
) -> Result<Option<usize>, ReadFailed>
    ensures answer { result ≡ read_answer moved }
    ensures silent { IsOk result → Keeps (E.contents errors.old) (E.contents errors.new) }
{
    match moved {
        Err(_) => Err(read_failed(errors)),
        Ok(0) => Ok(None),
        Ok(count) => Ok(Some(count)),
    }
}
