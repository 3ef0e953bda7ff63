// What the programs print, as bytes in a buffer.
#![tactic(auto)]

mod digits;
mod lines;
mod points;
mod store;

ghost use Rattle.std.specs.Prelude.{◌≡◌, length};
ghost use Rattle.basis.specs.Outcome.{bytes_outcome, buffer_after};
ghost use Rattle.report.specs.Lines.{list_line, points_line, refused_at_line, refused_line, side_refused_line, difference_line, counts_line};
ghost use Rattle.report.specs.Answer.{line_outcome};

use basis::{ByteCount, ErrorCode, Refusal};

// Writes the line of a list: reader number, letter and points.
pub fn list_line(
    reader: u16,
    letter: u8,
    points: &[u32],
    out: &mut [u8],
) -> Result<ByteCount, Refusal>
    ensures result_value { bytes_outcome result ≡ line_outcome (list_line reader letter points.now) (length out.old) }
    ensures out_after { out.new ≡ buffer_after (line_outcome (list_line reader letter points.now) (length out.old)) (list_line reader letter points.now) out.old }
{
    if out.len() < points::points_length(points, out.len()) + 9 {
        return Err(ErrorCode::Capacity.at(0));
    }
    Ok(ByteCount(lines::put_list_line(reader, letter, points, out)))
}

// Writes the line of a row of points.
pub fn points_line(points: &[u32], out: &mut [u8]) -> Result<ByteCount, Refusal>
    ensures result_value { bytes_outcome result ≡ line_outcome (points_line points.now) (length out.old) }
    ensures out_after { out.new ≡ buffer_after (line_outcome (points_line points.now) (length out.old)) (points_line points.now) out.old }
{
    if out.len() < points::points_length(points, out.len()) + 1 {
        return Err(ErrorCode::Capacity.at(0));
    }
    Ok(ByteCount(lines::put_points_line(points, out, 0)))
}

// Writes the line of a refusal with a position. The number is any, so that code and position are no `Refusal`.
pub fn refused_at_line(code: u32, position: usize, out: &mut [u8]) -> Result<ByteCount, Refusal>
    ensures result_value { bytes_outcome result ≡ line_outcome (refused_at_line code position) (length out.old) }
    ensures out_after { out.new ≡ buffer_after (line_outcome (refused_at_line code position) (length out.old)) (refused_at_line code position) out.old }
{
    if out.len() < lines::refused_at_length(code, position) {
        return Err(ErrorCode::Capacity.at(0));
    }
    Ok(ByteCount(lines::put_refused_at_line(code, position, out, 0)))
}

// Writes the line of a refusal without a position.
pub fn refused_line(code: u32, out: &mut [u8]) -> Result<ByteCount, Refusal>
    ensures result_value { bytes_outcome result ≡ line_outcome (refused_line code) (length out.old) }
    ensures out_after { out.new ≡ buffer_after (line_outcome (refused_line code) (length out.old)) (refused_line code) out.old }
{
    if out.len() < digits::digits_length(code as usize, 10, 1) + 9 {
        return Err(ErrorCode::Capacity.at(0));
    }
    Ok(ByteCount(lines::put_refused_line(code, out)))
}

// Writes the line of a refusal with a position, after the side that it is of.
pub fn side_refused_line(
    side: &[u8],
    code: u32,
    position: usize,
    out: &mut [u8],
) -> Result<ByteCount, Refusal>
    ensures result_value { bytes_outcome result ≡ line_outcome (side_refused_line side.now code position) (length out.old) }
    ensures out_after { out.new ≡ buffer_after (line_outcome (side_refused_line side.now code position) (length out.old)) (side_refused_line side.now code position) out.old }
{
    if out.len() < side.len() + 1 + lines::refused_at_length(code, position) {
        return Err(ErrorCode::Capacity.at(0));
    }
    Ok(ByteCount(lines::put_side_refused_line(side, code, position, out)))
}

// Writes the line of a difference: reader number and words.
pub fn difference_line(reader: u16, words: &[u8], out: &mut [u8]) -> Result<ByteCount, Refusal>
    ensures result_value { bytes_outcome result ≡ line_outcome (difference_line reader words.now) (length out.old) }
    ensures out_after { out.new ≡ buffer_after (line_outcome (difference_line reader words.now) (length out.old)) (difference_line reader words.now) out.old }
{
    if out.len() < words.len() + 7 {
        return Err(ErrorCode::Capacity.at(0));
    }
    Ok(ByteCount(lines::put_difference_line(reader, words, out)))
}

// How many rows of a report have each difference.
#[derive(Clone, Copy)]
pub struct Counts {
    pub same: usize,
    pub other: usize,
    pub respelled: usize,
    pub left: usize,
    pub right: usize,
}

// Writes the line of the five counts of a report.
pub fn counts_line(counts: Counts, out: &mut [u8]) -> Result<ByteCount, Refusal>
    ensures result_value { bytes_outcome result ≡ line_outcome (counts_line counts.same counts.other counts.respelled counts.left counts.right) (length out.old) }
    ensures out_after { out.new ≡ buffer_after (line_outcome (counts_line counts.same counts.other counts.respelled counts.left counts.right) (length out.old)) (counts_line counts.same counts.other counts.respelled counts.left counts.right) out.old }
{
    if out.len() < lines::counts_length(counts) {
        return Err(ErrorCode::Capacity.at(0));
    }
    Ok(ByteCount(lines::put_counts_line(counts, out)))
}
