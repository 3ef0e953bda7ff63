// The whole report.
ghost use Rattle.std.specs.Prelude.{◌≡◌, ◌++◌, ◌≤◌, length, drop};
ghost use Rattle.nametable_differences.specs.Differences.{rows_of};
ghost use Rattle.nametable_differences.specs.Report.{rows_report, report_of, report_capacity};

use crate::table::{Pair, WholeTable};
use crate::{forms, lines, rows};
use nametable_format::LONGEST_TABLE;
use report::Counts;

// Writes the report on two whole long tables, and answers its length.
fn put_rows(left: &WholeTable, right: &WholeTable, out: &mut [u8]) -> usize
    requires { report_capacity ≤ length out.old }
    ensures value { result ≡ length (rows_report (rows_of left.now.bytes.now right.now.bytes.now)) }
    ensures out_after { out.new ≡ rows_report (rows_of left.now.bytes.now right.now.bytes.now) ++ drop (length (rows_report (rows_of left.now.bytes.now right.now.bytes.now))) out.old }
{
    let total = left.entry_count() + right.entry_count();
    let mut counts = Counts {
        same: 0,
        other: 0,
        respelled: 0,
        left: 0,
        right: 0,
    };
    let mut at = 0;
    let mut i = 0;
    let mut j = 0;
    // Kept as a `while`: a row takes an entry of one table or of both, so neither index goes up by one each turn.
    while i + j < total {
        let pair = Pair {
            left: *left,
            i,
            right: *right,
            j,
        };
        let found = pair.find_row();
        let difference = found.difference;
        at = lines::put_row(found.reader, difference, out, at);
        counts = rows::counted(counts, difference);
        i += rows::left_taken(difference);
        j += rows::right_taken(difference);
    }
    lines::put_counts(counts, out, at)
}

// Writes the report on two tables of either form, and answers its length. Both are judged, whatever the
// verdict on the left one, before a byte is written.
pub(crate) fn put_report(left: &[u8], right: &[u8], out: &mut [u8]) -> usize
    requires { report_capacity ≤ length out.old }
    ensures value { result ≡ length (report_of left.now right.now) }
    ensures out_after { out.new ≡ report_of left.now right.now ++ drop (length (report_of left.now right.now)) out.old }
{
    // Fixed memory, so a buffer for the most bytes there can be, and their count.
    let mut left_long = [0u8; LONGEST_TABLE];
    let left_judged = forms::put_long_form(left, &mut left_long);
    let mut right_long = [0u8; LONGEST_TABLE];
    let right_judged = forms::put_long_form(right, &mut right_long);
    match left_judged {
        Err(refusal) => lines::put_refusal(b"left", refusal, out),
        Ok(m) => match right_judged {
            Err(refusal) => lines::put_refusal(b"right", refusal, out),
            Ok(n) => {
                let left_table = WholeTable {
                    bytes: &left_long[..m.0],
                };
                let right_table = WholeTable {
                    bytes: &right_long[..n.0],
                };
                put_rows(&left_table, &right_table, out)
            }
        },
    }
}
