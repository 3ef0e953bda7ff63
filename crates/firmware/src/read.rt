// Reading a label.
ghost use Rattle.std.specs.Prelude.{◌≡◌, length};
ghost use Rattle.basis.specs.Outcome.{bytes_outcome, buffer_after};
ghost use Rattle.utf16.specs.Bytes.{bytes_of};
ghost use Rattle.scheme.specs.Coding.{text_of};
ghost use Rattle.firmware.specs.Answer.{read_by, read_outcome, read_text};

use crate::{LABEL_BYTES, TEXT_BYTES};
use basis::{ByteCount, ErrorCode, Refusal};
use scheme::Scheme;

// Reads the text of a label under a scheme.
fn read_by(scheme: Scheme, label: &[u8], text: &mut [u8]) -> Result<ByteCount, Refusal>
    ensures result_value { bytes_outcome result ≡ read_by scheme (length text.old) label.now }
    ensures text_after { text.new ≡ buffer_after (read_by scheme (length text.old) label.now) (bytes_of (text_of scheme label.now)) text.old }
{
    if text.len() < TEXT_BYTES {
        return Err(ErrorCode::Capacity.at(0));
    }
    // Fixed memory, so a buffer for the most points there can be, and their count.
    let mut points = [0u32; LABEL_BYTES];
    let count = scheme::decode(scheme, label, &mut points)?;
    utf16::bytes::points_to_bytes(&points, count, text)
}

// Reads the text of a label under the scheme that a number names.
pub(crate) fn read(number: u32, label: &[u8], text: &mut [u8]) -> Result<ByteCount, Refusal>
    ensures result_value { bytes_outcome result ≡ read_outcome number (length text.old) label.now }
    ensures text_after { text.new ≡ buffer_after (read_outcome number (length text.old) label.now) (read_text number label.now) text.old }
{
    let scheme = scheme::of_number(number).ok_or(ErrorCode::UnknownScheme.at(0))?;
    read_by(scheme, label, text)
}
