// What is printed for what was read of two tables, written into the buffer passed.
ghost use Rattle.std.specs.Prelude.{◌≤◌, ◌≡◌, ◌++◌, length, drop};
ghost use Rattle.streams.specs.Reading.{believed};
ghost use Rattle.nametable_differences.specs.Report.{report_of, report_capacity};

use streams::ReadFailed;

// Writes the report on what was read of two tables, and answers how many bytes that are. The first
// ending says how reading the left table ended, the second that of the right one: a table of which a
// read failed counts as an empty one, whatever was read before.
pub(crate) fn put_believed(
    first: Result<(), ReadFailed>,
    left: &[u8],
    second: Result<(), ReadFailed>,
    right: &[u8],
    out: &mut [u8],
) -> usize
    requires { report_capacity ≤ length out.old }
    ensures value { result ≡ length (report_of (believed first left.now) (believed second right.now)) }
    ensures out_after { out.new ≡ report_of (believed first left.now) (believed second right.now) ++ drop (length (report_of (believed first left.now) (believed second right.now))) out.old }
{
    let left_table = streams::believed_bytes(first, left);
    let right_table = streams::believed_bytes(second, right);
    basis::bytes_written(nametable_differences::write_report(left_table, right_table, out))
}
