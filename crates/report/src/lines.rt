// Whole lines, where there is room for them, and the lengths of those that are measured by their numbers.
ghost use Rattle.std.specs.Prelude.{◌≡◌, ◌+◌, ◌≤◌, length};
ghost use Rattle.basis.specs.Internal.{Stored};
ghost use Rattle.report.specs.Lines.{points_line, list_line, word_number, refused_line, refused_at_line, side_refused_line, difference_line, counts_line};

use crate::{Counts, digits, points, store};

// Stores the line of a row of points at an index, and answers the index after it.
pub(crate) fn put_points_line(points: &[u32], out: &mut [u8], at: usize) -> usize
    requires { at + length (points_line points.now) ≤ length out.old }
    ensures { Stored out.old at (points_line points.now) out.new result }
{
    let after_points = points::put_points(points, out, at);
    out[after_points] = 10;
    after_points + 1
}

// Stores the line of a list, and answers its length.
pub(crate) fn put_list_line(reader: u16, letter: u8, points: &[u32], out: &mut [u8]) -> usize
    requires { length (list_line reader letter points.now) ≤ length out.old }
    ensures { Stored out.old 0 (list_line reader letter points.now) out.new result }
{
    let after_reader = digits::put_fixed_digits(reader as usize, 10, 5, out, 0);
    let after_letter = store::put_bytes(&[32, letter, 32], out, after_reader);
    put_points_line(points, out, after_letter)
}

// Stores a word, a space and a number at an index, and answers the index after them.
fn put_word_number(word: &[u8], number: usize, out: &mut [u8], at: usize) -> usize
    requires { at + length (word_number word.now number) ≤ length out.old }
    ensures { Stored out.old at (word_number word.now number) out.new result }
{
    let after_word = store::put_bytes(word, out, at);
    out[after_word] = 32;
    digits::put_digits(number, 10, 1, out, after_word + 1)
}

// Stores the line of a refusal without a position, and answers its length.
pub(crate) fn put_refused_line(code: u32, out: &mut [u8]) -> usize
    requires { length (refused_line code) ≤ length out.old }
    ensures { Stored out.old 0 (refused_line code) out.new result }
{
    let end = put_word_number(b"refused", code as usize, out, 0);
    out[end] = 10;
    end + 1
}

// How many bytes the line of a refusal with a position has.
pub(crate) fn refused_at_length(code: u32, position: usize) -> usize
    ensures value { result ≡ length (refused_at_line code position) }
    ensures upper_bound { result ≤ 141 }
{
    digits::digits_length(code as usize, 10, 1) + digits::digits_length(position, 10, 1) + 13
}

// Stores the line of a refusal with a position at an index, and answers the index after it.
pub(crate) fn put_refused_at_line(code: u32, position: usize, out: &mut [u8], at: usize) -> usize
    requires { at + length (refused_at_line code position) ≤ length out.old }
    ensures { Stored out.old at (refused_at_line code position) out.new result }
{
    let after_number = put_word_number(b"refused", code as usize, out, at);
    let after_at = store::put_bytes(b" at ", out, after_number);
    let after_position = digits::put_digits(position, 10, 1, out, after_at);
    out[after_position] = 10;
    after_position + 1
}

// Stores a side and the line of its refusal, and answers the length of both.
pub(crate) fn put_side_refused_line(
    side: &[u8],
    code: u32,
    position: usize,
    out: &mut [u8],
) -> usize
    requires { length (side_refused_line side.now code position) ≤ length out.old }
    ensures { Stored out.old 0 (side_refused_line side.now code position) out.new result }
{
    let after_side = store::put_bytes(side, out, 0);
    out[after_side] = 32;
    put_refused_at_line(code, position, out, after_side + 1)
}

// Stores the line of a difference, and answers its length.
pub(crate) fn put_difference_line(reader: u16, words: &[u8], out: &mut [u8]) -> usize
    requires { length (difference_line reader words.now) ≤ length out.old }
    ensures { Stored out.old 0 (difference_line reader words.now) out.new result }
{
    let after_reader = digits::put_fixed_digits(reader as usize, 10, 5, out, 0);
    out[after_reader] = 32;
    let after_words = store::put_bytes(words, out, after_reader + 1);
    out[after_words] = 10;
    after_words + 1
}

// How many bytes the line of the five counts has.
pub(crate) fn counts_length(counts: Counts) -> usize
    ensures { result ≡ length (counts_line counts.same counts.other counts.respelled counts.left counts.right) }
{
    let same = digits::digits_length(counts.same, 10, 1);
    let other = digits::digits_length(counts.other, 10, 1);
    let respelled = digits::digits_length(counts.respelled, 10, 1);
    let left = digits::digits_length(counts.left, 10, 1);
    let right = digits::digits_length(counts.right, 10, 1);
    same + other + respelled + left + right + 37
}

// Stores the line of the five counts, and answers its length.
pub(crate) fn put_counts_line(counts: Counts, out: &mut [u8]) -> usize
    requires { length (counts_line counts.same counts.other counts.respelled counts.left counts.right) ≤ length out.old }
    ensures { Stored out.old 0 (counts_line counts.same counts.other counts.respelled counts.left counts.right) out.new result }
{
    let after_same = put_word_number(b"same", counts.same, out, 0);
    let after_other = put_word_number(b" other", counts.other, out, after_same);
    let after_respelled = put_word_number(b" respelled", counts.respelled, out, after_other);
    let after_left = put_word_number(b" left", counts.left, out, after_respelled);
    let after_right = put_word_number(b" right", counts.right, out, after_left);
    out[after_right] = 10;
    after_right + 1
}
