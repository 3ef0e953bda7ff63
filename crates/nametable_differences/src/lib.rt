// What differs between two name tables of either form, as the lines of a report (02's sheet).
#![tactic(auto)]

mod entries;
mod forms;
mod lines;
mod rows;
mod table;
mod whole;

ghost use Rattle.std.specs.Prelude.{◌≡◌, length};
ghost use Rattle.basis.specs.Outcome.{bytes_outcome, buffer_after};
ghost use Rattle.nametable_differences.specs.Report.{report_of, report_outcome};

use basis::{ByteCount, ErrorCode, Refusal};

// The room that a caller must have for a report, in bytes.
pub const REPORT_CAPACITY: usize = 16546;

// What differs at a reader number that an entry of either table has.
#[derive(Clone, Copy)]
pub enum Difference {
    Same,
    OtherText,
    Respelled,
    OnlyLeft,
    OnlyRight,
}

// Writes the report on two tables: a line for each reader number at which they differ and a line with
// the counts, or one line with the refusal of a table, the left one's first.
pub fn write_report(left: &[u8], right: &[u8], report: &mut [u8]) -> Result<ByteCount, Refusal>
    ensures result_value { bytes_outcome result ≡ report_outcome left.now right.now (length report.old) }
    ensures report_after { report.new ≡ buffer_after (report_outcome left.now right.now (length report.old)) (report_of left.now right.now) report.old }
{
    let has_no_room = report.len() < REPORT_CAPACITY;
    if has_no_room {
        return Err(ErrorCode::Capacity.at(0));
    }
    Ok(ByteCount(whole::put_report(left, right, report)))
}
