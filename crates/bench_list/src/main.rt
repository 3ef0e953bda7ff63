// Reads LACE labels from standard input, one a line, and prints for each its points or its refusal.
#![tactic(auto)]

mod answers;
mod chunks;

ghost use Rattle.std.specs.Prelude.{◌≡◌, ◌*◌, ◌≤◌, length};
ghost use Rattle.report.specs.Answer.{line_room};
ghost use Rattle.bench_list.specs.Listing.{held_room};

use std::io::{Read, Write};
use std::ops::ControlFlow;
use streams::ReadFailed;

// Prints the answer to the bytes held of a line once reading is over.
fn print_last<W: Write, E: Write>(
    output: &mut W,
    errors: &mut E,
    ending: Result<(), ReadFailed>,
    held: &[u8],
    out: &mut [u8],
)
    requires { line_room ≤ length out.old }
{
    let n = answers::answer_last(ending, held, out);
    streams::print(output, errors, &out[..n]);
}

// Answers the lines of an input, read by read, until reading is over or a write fails.
fn run<R: Read, W: Write, E: Write>(
    input: &mut R,
    output: &mut W,
    errors: &mut E,
    chunk: &mut [u8],
    line: &mut [u8],
    out: &mut [u8],
)
    requires line_len { length line.old ≡ held_room }
    requires chunk_in_bounds { line_room * length chunk.old ≤ length out.old }
    requires line_room_in_bounds { line_room ≤ length out.old }
{
    let mut held = 0;
    for _ in 0..u64::MAX {
        let answer = streams::read(input, errors, chunk);
        match chunks::answer_read(answer, chunk, line, held, out) {
            ControlFlow::Break(ending) => {
                return print_last(output, errors, ending, &line[..held], out);
            }
            ControlFlow::Continue(progress) => {
                let written = progress.written;
                if streams::print(output, errors, &out[..written]) < written {
                    return;
                }
                held = progress.held;
            }
        }
    }
}

// A buffer of so many bytes.
fn buffer<const N: usize>() -> [u8; N]
    ensures { N ≡ length result }
{
    [0; N]
}

// The buffer of what is printed: 600 bytes for each byte of a chunk, since each may end a line.
fn output() -> [u8; 614400]
    ensures { 614400 ≡ length result }
{
    buffer::<614400>()
}

fn main(rt: HostRuntime) {
    let mut stdin = rt.stdin();
    let mut stdout = rt.stdout();
    let mut stderr = rt.stderr();
    let mut chunk = [0u8; 1024];
    // one byte more than a label has at most, to know a longer line
    let mut line = [0u8; 64];
    let mut out = output();
    run(
        &mut stdin,
        &mut stdout,
        &mut stderr,
        &mut chunk,
        &mut line,
        &mut out,
    );
}
