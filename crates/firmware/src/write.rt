// Writing a label.
ghost use Rattle.std.specs.Prelude.{◌≡◌, length};
ghost use Rattle.basis.specs.Outcome.{bytes_outcome, buffer_after};
ghost use Rattle.utf16.specs.Bytes.{points_of};
ghost use Rattle.scheme.specs.Coding.{label_of};
ghost use Rattle.firmware.specs.Answer.{write_by, write_outcome, written_label};

use crate::{LABEL_BYTES, TEXT_BYTES, TEXT_POINTS};
use basis::{ByteCount, ErrorCode, Refusal};
use scheme::Scheme;

// Writes the label of a text of bytes under a scheme.
fn write_by(scheme: Scheme, text: &[u8], label: &mut [u8]) -> Result<ByteCount, Refusal>
    ensures result_value { bytes_outcome result ≡ write_by scheme (length label.old) text.now }
    ensures label_after { label.new ≡ buffer_after (write_by scheme (length label.old) text.now) (label_of scheme (points_of text.now)) label.old }
{
    if label.len() < LABEL_BYTES {
        return Err(ErrorCode::Capacity.at(0));
    }
    if text.len() % 2 == 1 {
        return Err(ErrorCode::OddByteCount.at(0));
    }
    if text.len() == 0 {
        return Err(ErrorCode::Empty.at(0));
    }
    if TEXT_BYTES < text.len() {
        return Err(ErrorCode::TooLong.at(0));
    }
    // Fixed memory, so a buffer for the most points there can be, and their count.
    let mut points = [0u32; TEXT_POINTS];
    let count = utf16::bytes::bytes_to_points(text, &mut points)?;
    scheme::encode(scheme, &points[..count.0], label)
}

// Writes the label of a text of bytes under the scheme that a number names.
pub(crate) fn write(number: u32, text: &[u8], label: &mut [u8]) -> Result<ByteCount, Refusal>
    ensures result_value { bytes_outcome result ≡ write_outcome number (length label.old) text.now }
    ensures label_after { label.new ≡ buffer_after (write_outcome number (length label.old) text.now) (written_label number text.now) label.old }
{
    let scheme = scheme::of_number(number).ok_or(ErrorCode::UnknownScheme.at(0))?;
    write_by(scheme, text, label)
}
