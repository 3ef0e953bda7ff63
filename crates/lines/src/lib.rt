// Splitting input that comes in chunks into lines, in a buffer that holds the first bytes of a line.
#![tactic(auto)]

ghost use Rattle.std.specs.Prelude.{◌≡◌, ◌++◌, ◌≤◌, min, length, take, drop};
ghost use Rattle.lines.specs.Step.{line_end, held_after, in_front, step_answer};

// The byte that ends a line.
const LINE_FEED: u8 = b'\n';

// What a step found: so many bytes are held; and where the next line begins in the chunk, if the line ended in it.
#[derive(Drop)]
pub struct LineStep {
    pub next: Option<usize>,
    pub held: usize,
}

// The index of the first line feed, or the length.
fn line_end(left: &[u8]) -> usize
    ensures { result ≡ line_end left.now }
{
    left.iter()
        .position(|&byte| byte == LINE_FEED)
        .unwrap_or(left.len())
}

// Stores the part behind the bytes held, as far as there is room, and answers how many are held then.
fn keep(part: &[u8], line: &mut [u8], held: usize) -> usize
    requires { held ≤ length line.old }
    ensures value { result ≡ length (take (length line.old) (take held line.old ++ part.now)) }
    ensures line_after { line.new ≡ in_front (take (length line.old) (take held line.old ++ part.now)) line.old }
{
    let end = line.len().min(held + part.len());
    line[held..end].copy_from_slice(&part[..end - held]);
    end
}

// Takes the bytes of the chunk from an index on up to the first line feed behind those held in the line, as far as there
// is room there. From an index past the chunk's end nothing is left; a count above the line's room holds all of the line.
pub fn next_line(chunk: &[u8], from: usize, line: &mut [u8], held: usize) -> LineStep
    ensures value { result ≡ step_answer from (drop from chunk.now) (length (held_after (length line.old) (take held line.old) (drop from chunk.now))) }
    ensures line_after { line.new ≡ in_front (held_after (length line.old) (take held line.old) (drop from chunk.now)) line.old }
{
    let start = from.min(chunk.len());
    let left = &chunk[start..];
    let end = line_end(left);
    let kept = keep(&left[..end], line, held.min(line.len()));
    LineStep {
        next: (end < left.len()).then_some(start + end + 1),
        held: kept,
    }
}
