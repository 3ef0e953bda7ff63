// The answer to one line, through the C interface.
ghost use Rattle.std.specs.Prelude.{◌≡◌, ◌≤◌, length};
ghost use Rattle.basis.specs.Outcome.{done, bytes_outcome, buffer_after};
ghost use Rattle.utf16.specs.Bytes.{points_of};
ghost use Rattle.utf16.specs.Answer.{bytes_to_points_outcome};
ghost use Rattle.report.specs.Lines.{points_line};
ghost use Rattle.report.specs.Answer.{line_room, line_outcome};
ghost use Rattle.lines.specs.Step.{in_front};
ghost use Rattle.lines.specs.Run.{last_line};
ghost use Rattle.streams.specs.Reading.{believed};
ghost use Rattle.bench_list.specs.Listing.{bench_line, bench_lines};

use basis::{ByteCount, Refusal};
use firmware::{REFUSED, TEXT_BYTES, TEXT_POINTS};
use streams::ReadFailed;

// The number of the scheme that the interface is asked for: LACE.
const SCHEME: u32 = 2;

// Writes the line of the points of a text of bytes that may be converted.
fn text_line(text: &[u8], out: &mut [u8]) -> Result<ByteCount, Refusal>
    requires { bytes_to_points_outcome text.now 126 ≡ done (length (points_of text.now)) }
    ensures result_value { bytes_outcome result ≡ line_outcome (points_line (points_of text.now)) (length out.old) }
    ensures out_after { out.new ≡ buffer_after (line_outcome (points_line (points_of text.now)) (length out.old)) (points_line (points_of text.now)) out.old }
{
    // Fixed memory, so a buffer for the most points there can be, and their count.
    let mut points = [0u32; TEXT_POINTS];
    let count = utf16::bytes::bytes_to_points(text, &mut points)?;
    report::points_line(&points[..count.0], out)
}

// Writes what is printed for a line, and answers how many bytes that are.
pub(crate) fn answer_line(label: &[u8], out: &mut [u8]) -> usize
    requires { line_room ≤ length out.old }
    ensures value { result ≡ length (bench_line label.now) }
    ensures out_after { out.new ≡ in_front (bench_line label.now) out.old }
{
    // Fixed memory, so a buffer for the most bytes there can be, and their count.
    let mut text = [0u8; TEXT_BYTES];
    let answer = firmware::distelhut_read(SCHEME, label, &mut text);
    if answer < REFUSED {
        let n = answer as usize;
        return basis::bytes_written(text_line(&text[..n], out));
    }
    basis::bytes_written(report::refused_line(answer - REFUSED, out))
}

// Writes what is printed once reading is over for the bytes held of a line, and answers how many bytes that are. They are a
// line if there is one and the input ended; if a read failed, nothing is printed for them.
pub(crate) fn answer_last(ending: Result<(), ReadFailed>, held: &[u8], out: &mut [u8]) -> usize
    requires { line_room ≤ length out.old }
    ensures value { result ≡ length (bench_lines (last_line (believed ending held.now))) }
    ensures out_after { out.new ≡ in_front (bench_lines (last_line (believed ending held.now))) out.old }
{
    let last = streams::believed_bytes(ending, held);
    if 0 < last.len() {
        return answer_line(last, out);
    }
    0
}
