// The lines of the report, stored one behind the other.
ghost use Rattle.std.specs.Prelude.{◌≡◌, ◌++◌, ◌+◌, ◌≤◌, length, drop};
ghost use Rattle.basis.specs.Outcome.{number_of};
ghost use Rattle.basis.specs.Internal.{Stored};
ghost use Rattle.report.specs.Lines.{side_refused_line, difference_line, counts_line};
ghost use Rattle.nametable_differences.specs.Differences.{row};
ghost use Rattle.nametable_differences.specs.Report.{row_line, report_capacity};

use crate::Difference;
use basis::Refusal;
use report::Counts;

// Stores the line of a reader number and some words at an index, and answers the index after it.
fn put_words(reader: u16, words: &[u8], out: &mut [u8], at: usize) -> usize
    requires { at + length (difference_line reader words.now) ≤ length out.old }
    ensures { Stored out.old at (difference_line reader words.now) out.new result }
{
    at + basis::bytes_written(report::difference_line(reader, words, &mut out[at..]))
}

// Stores the line of a row at an index, if it has one, and answers the index after it.
pub(crate) fn put_row(reader: u16, difference: Difference, out: &mut [u8], at: usize) -> usize
    requires { at + length (row_line (row reader difference)) ≤ length out.old }
    ensures { Stored out.old at (row_line (row reader difference)) out.new result }
{
    match difference {
        Difference::Same => at,
        Difference::OtherText => put_words(reader, b"other text", out, at),
        Difference::Respelled => put_words(reader, b"respelled", out, at),
        Difference::OnlyLeft => put_words(reader, b"only left", out, at),
        Difference::OnlyRight => put_words(reader, b"only right", out, at),
    }
}

// Stores the line of the counts at an index, and answers the index after it.
pub(crate) fn put_counts(counts: Counts, out: &mut [u8], at: usize) -> usize
    requires { at + length (counts_line counts.same counts.other counts.respelled counts.left counts.right) ≤ length out.old }
    ensures { Stored out.old at (counts_line counts.same counts.other counts.respelled counts.left counts.right) out.new result }
{
    at + basis::bytes_written(report::counts_line(counts, &mut out[at..]))
}

// Writes the line of a table's refusal, and answers its length.
pub(crate) fn put_refusal(side: &[u8], refusal: Refusal, out: &mut [u8]) -> usize
    requires side_len_bound { length side.now ≤ 5 }
    requires report_capacity_in_bounds { report_capacity ≤ length out.old }
    ensures value { result ≡ length (side_refused_line side.now (number_of refusal.code) refusal.position) }
    ensures out_after { out.new ≡ side_refused_line side.now (number_of refusal.code) refusal.position ++ drop (length (side_refused_line side.now (number_of refusal.code) refusal.position)) out.old }
{
    let number = u32::from(refusal.code);
    basis::bytes_written(report::side_refused_line(side, number, refusal.position, out))
}
