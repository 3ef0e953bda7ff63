// Readers and writers that a script drives: bytes, signals and failures, one a call.
use super::*;
use std::io;
use std::io::ErrorKind;
use std::process::Abort;

// What a call does: it moves one byte (a writer takes the one that it is given), a signal interrupts it, or it fails.
#[derive(Clone, Copy)]
enum Step {
    Byte(u8),
    Signal,
    Fail,
}

// A reader that has no more steps is at its end, and such a writer is full.
#[derive(Drop)]
struct Scripted<'a> {
    steps: &'a [Step],
    at: usize,
}

fn by_script(steps: &[Step]) -> Scripted<'_> {
    Scripted { steps, at: 0 }
}

impl Scripted<'_> {
    fn next(&mut self) -> io::Result<Option<u8>> {
        if self.at >= self.steps.len() {
            return Ok(None);
        }
        let step = self.steps[self.at];
        self.at += 1;
        match step {
            Step::Byte(byte) => Ok(Some(byte)),
            Step::Signal => Err(io::Error::from(ErrorKind::Interrupted)),
            Step::Fail => Err(io::Error::from(ErrorKind::Other)),
        }
    }
}

impl Read for Scripted<'_> {
    fn read(&mut self, buf: &mut [u8]) -> io::Result<usize> {
        if buf.len() == 0 {
            return Ok(0);
        }
        match self.next()? {
            None => Ok(0),
            Some(byte) => {
                buf[0] = byte;
                Ok(1)
            }
        }
    }
}

impl Write for Scripted<'_> {
    fn write(&mut self, buf: &[u8]) -> io::Result<usize> {
        if buf.len() == 0 {
            return Ok(0);
        }
        match self.next()? {
            None => Ok(0),
            Some(_) => Ok(1),
        }
    }

    fn flush(&mut self) -> io::Result<()> {
        Ok(())
    }
}

// What is read of an input, as the bytes that are believed, and what is reported.
fn believed_of(rt: &(impl Abort + AllocGlobal), steps: &[Step], want: &[u8], report: &[u8]) {
    let mut errors = Vec::new(rt.alloc());
    let mut buffer = [0u8; 3];
    let read = read_full(&mut by_script(steps), &mut errors, &mut buffer);
    let n = read.count;
    let believed = believed_bytes(read.ending, &buffer[..n]);
    assert_eq!(rt; believed, want);
    assert_eq!(rt; errors.as_slice(), report);
}

#[test]
fn input_is_believed_if_it_ends(rt: HostRuntime) {
    let steps = [
        Step::Signal,
        Step::Byte(7),
        Step::Signal,
        Step::Signal,
        Step::Byte(8),
    ];
    believed_of(&rt, &steps, &[7, 8], b"");
    let longer = [Step::Byte(7), Step::Byte(8), Step::Byte(9), Step::Fail];
    believed_of(&rt, &longer, &[7, 8, 9], b"");
}

#[test]
fn input_is_not_believed_if_a_read_fails(rt: HostRuntime) {
    believed_of(&rt, &[Step::Fail], &[], b"read failed\n");
    let later = [Step::Byte(7), Step::Signal, Step::Fail, Step::Byte(8)];
    believed_of(&rt, &later, &[], b"read failed\n");
}

#[test]
fn no_room_is_a_failed_read(rt: HostRuntime) {
    let mut errors = Vec::new(rt.alloc());
    let answer = read(&mut by_script(&[Step::Byte(7)]), &mut errors, &mut []);
    assert!(rt; answer.is_err());
    assert_eq!(rt; errors.as_slice(), b"read failed\n".as_slice());
}

#[test]
fn failed_write_is_counted_and_reported(rt: HostRuntime) {
    let cases: [(&[Step], usize, &[u8]); 4] = [
        (
            &[Step::Byte(0), Step::Signal, Step::Byte(0), Step::Byte(0)],
            3,
            b"",
        ),
        (
            &[Step::Byte(0), Step::Signal, Step::Fail, Step::Byte(0)],
            1,
            b"write failed\n",
        ),
        (&[Step::Byte(0), Step::Byte(0)], 2, b"write failed\n"),
        (&[Step::Fail], 0, b"write failed\n"),
    ];
    for (steps, want, report) in cases {
        let mut errors = Vec::new(rt.alloc());
        let written = print(&mut by_script(steps), &mut errors, b"abc");
        assert_eq!(rt; written, want);
        assert_eq!(rt; errors.as_slice(), report);
    }
}

#[test]
fn missing_argument_is_a_failed_read(rt: HostRuntime) {
    let mut errors = Vec::new(rt.alloc());
    let mut buffer = [0u8; 3];
    let read = read_argument(&rt, &mut errors, 1000, &mut buffer);
    assert_eq!(rt; read.count, 0);
    assert!(rt; read.ending.is_err());
    assert_eq!(rt; errors.as_slice(), b"read failed\n".as_slice());
}
