// The answers to the lines of a chunk of input.
ghost use Rattle.std.specs.Prelude.{◌*◌, ◌≤◌, length, take};
ghost use Rattle.report.specs.Answer.{line_room};
ghost use Rattle.streams.specs.Reading.{ReadFits};
ghost use Rattle.bench_list.specs.Answered.{Answered};
ghost use Rattle.bench_list.specs.Turns.{TurnLeaves};

use crate::answers;
use std::ops::ControlFlow;
use streams::ReadFailed;

// How many bytes were written, and how many are held of the line that has not ended.
#[derive(Drop)]
pub(crate) struct Progress {
    pub written: usize,
    pub held: usize,
}

// Writes what is printed for the lines that end in the chunk, and holds what there is of the next.
fn answer_chunk(chunk: &[u8], line: &mut [u8], held: usize, out: &mut [u8]) -> Progress
    requires held_in_bounds { held ≤ length line.old }
    requires chunk_in_bounds { line_room * length chunk.now ≤ length out.old }
    ensures { Answered (length line.old) (take held line.old) chunk.now out.old out.new result.written line.new result.held }
{
    let mut kept = held;
    let mut at = 0;
    let mut from = 0;
    // Kept as a `while`: each turn goes on at the index that `next_line` answers.
    while from < chunk.len() {
        let step = lines::next_line(chunk, from, line, kept);
        let ended = step.held;
        let Some(next) = step.next else {
            return Progress {
                written: at,
                held: ended,
            };
        };
        at += answers::answer_line(&line[..ended], &mut out[at..]);
        kept = 0;
        from = next;
    }
    Progress {
        written: at,
        held: kept,
    }
}

// Takes a read's answer: writes what is printed for the lines that end in the bytes that it put into the chunk, and holds what
// there is of the next; or breaks off with how reading ended.
pub(crate) fn answer_read(
    answer: Result<Option<usize>, ReadFailed>,
    chunk: &[u8],
    line: &mut [u8],
    held: usize,
    out: &mut [u8],
) -> ControlFlow<Result<(), ReadFailed>, Progress>
    requires read_fits { ReadFits (length chunk.now) answer }
    requires held_in_bounds { held ≤ length line.old }
    requires chunk_in_bounds { line_room * length chunk.now ≤ length out.old }
    ensures { TurnLeaves answer held chunk.now line.old line.new out.old out.new result }
{
    match answer {
        Err(failed) => ControlFlow::Break(Err(failed)),
        Ok(None) => ControlFlow::Break(Ok(())),
        Ok(Some(n)) => ControlFlow::Continue(answer_chunk(&chunk[..n], line, held, out)),
    }
}
