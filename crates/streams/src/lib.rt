// Reading a reader or a named file, and printing. A call that a signal interrupts is made again. Any other failure to
// open, read or write is reported to the writer of errors and answered, so that a failed read is not taken for the end of
// input, nor a failed write for a done one.
#![tactic(auto)]

mod calls;
#[cfg(test)]
mod tests;

ghost use Rattle.std.specs.Prelude.{◌≡◌, ◌≤◌, length, take, IsOk};
ghost use Rattle.std.specs.Io.KnownBytes.{Appends, Keeps};
ghost use Rattle.streams.specs.Reading.{IsPrefixLen, ReadFits, ReadTakes, FillTakes, believed};

use std::io::{Read, Write};
use std::rt::{Env, Files};

// A read failed, and that was reported.
#[derive(Clone, Copy)]
pub struct ReadFailed;

// What filling a buffer answers: so many bytes were read into it, and how reading ended. The count is not in `ending`, since both
// endings have it: `FillTakes` says of a failed read too which bytes it took.
#[derive(Drop)]
pub struct Filled {
    pub count: usize,
    pub ending: Result<(), ReadFailed>,
}

// Reads once into the front of the buffer, and answers how many bytes, or nothing at the end of the input. A failure is
// reported to the writer of errors. With an empty buffer 0 bytes would be taken for the end of input: that fails too.
pub fn read<R: Read, E: Write>(
    reader: &mut R,
    errors: &mut E,
    buffer: &mut [u8],
) -> Result<Option<usize>, ReadFailed>
    ensures fits { ReadFits (length buffer.old) result }
    ensures taken { ReadTakes (R.remaining reader.old) (R.remaining reader.new) buffer.new result }
    ensures silent { IsOk result → Keeps (E.contents errors.old) (E.contents errors.new) }
{
    if buffer.len() == 0 {
        return Err(calls::read_failed(errors));
    }
    for _ in 0..u64::MAX {
        let moved = reader.read(buffer);
        if !calls::was_interrupted(&moved) {
            return calls::read_answer(errors, moved);
        }
    }
    Err(calls::read_failed(errors))
}

// Reads until the buffer is full, the input ends or a read fails. A full buffer is answered as the end of input: what
// follows is not looked at.
pub fn read_full<R: Read, E: Write>(reader: &mut R, errors: &mut E, buffer: &mut [u8]) -> Filled
    ensures count { IsPrefixLen result.count buffer.new }
    ensures taken { FillTakes (R.remaining reader.old) (R.remaining reader.new) buffer.new result }
    ensures silent { IsOk result.ending → Keeps (E.contents errors.old) (E.contents errors.new) }
{
    let mut done = 0;
    // Kept as a `while`: a read goes on where the one before it ended.
    while done < buffer.len() {
        match read(reader, errors, &mut buffer[done..]) {
            Ok(Some(n)) => done += n,
            Ok(None) => break,
            Err(failed) => {
                return Filled {
                    count: done,
                    ending: Err(failed),
                };
            }
        }
    }
    Filled {
        count: done,
        ending: Ok(()),
    }
}

// Reads the file that the program's argument at the index names, as read_full does. A file that can't be opened is a failed
// read. An argument that is missing or too long is read as an empty path, and opening that fails, as for an empty argument.
// std's paths are text: a file whose name is not UTF-8 can't be opened, and is a failed read too.
// Closing loses no byte that was read, and whether it fails is not looked at.
pub fn read_argument<H: Env + Files, E: Write>(
    rt: &H,
    errors: &mut E,
    index: usize,
    buffer: &mut [u8],
) -> Filled
    ensures count { IsPrefixLen result.count buffer.new }
    ensures silent { IsOk result.ending → Keeps (E.contents errors.old) (E.contents errors.new) }
{
    // Fixed memory, so a buffer for the most bytes there can be, and their count.
    let mut path = [0u8; 4096];
    let n = rt.arg(index, &mut path).unwrap_or(0);
    let Some(mut file) = calls::open_file(rt, &path[..n]) else {
        return Filled {
            count: 0,
            ending: Err(calls::read_failed(errors)),
        };
    };
    read_full(&mut file, errors, buffer)
}

// The bytes that are believed of those that were read: all if the input ended, none if a read failed.
pub fn believed_bytes(ending: Result<(), ReadFailed>, bytes: &[u8]) -> &[u8]
    ensures { result.now ≡ believed ending bytes.now }
{
    match ending {
        Ok(()) => bytes,
        Err(_) => &bytes[..0],
    }
}

// Writes the bytes to the output, and answers how many were written: all of them unless a write failed. A failure is
// reported to the writer of errors.
pub fn print<W: Write, E: Write>(output: &mut W, errors: &mut E, bytes: &[u8]) -> usize
    ensures count { result ≤ length bytes.now }
    ensures written { Appends (W.contents output.old) (W.contents output.new) (take result bytes.now) }
    ensures silent { result ≡ length bytes.now → Keeps (E.contents errors.old) (E.contents errors.new) }
{
    let written = calls::write_all(output, bytes);
    if written < bytes.len() {
        calls::write_all(errors, b"write failed\n");
    }
    written
}
