// BRACE from points and to points, as name tables and the directory of schemes use it.
ghost use Rattle.std.specs.Prelude.{◌≡◌, length};
ghost use Rattle.basis.specs.Outcome.{bytes_outcome, buffer_after};
ghost use Rattle.utf16.specs.Answer.{points_outcome};
ghost use Rattle.brace.specs.Points.{encode_outcome, decode_outcome, label_of, text_of};

use basis::{ByteCount, ErrorCode, Refusal};
use utf16::PointCount;

// The points that a text has at most.
const TEXT_POINTS: usize = 63;

// The units that it has at most.
const TEXT_UNITS: usize = 63;

// Writes the label of a text.
pub fn encode(text: &[u32], label: &mut [u8]) -> Result<ByteCount, Refusal>
    ensures result_value { bytes_outcome result ≡ encode_outcome (length label.old) text.now }
    ensures label_after { label.new ≡ buffer_after (encode_outcome (length label.old) text.now) (label_of text.now) label.old }
{
    labels::check_text(text, label.len())?;
    if TEXT_POINTS < text.len() {
        return Err(ErrorCode::TooLong.at(0));
    }
    // Fixed memory, so a buffer for the most units there can be, and their count.
    let mut units = [0u16; 126];
    let count = utf16::to_units(text, PointCount(text.len()), &mut units)?;
    crate::encode(&units[..count.0], label)
}

// Reads the text of a label.
pub fn decode(label: &[u8], text: &mut [u32]) -> Result<PointCount, Refusal>
    ensures result_value { points_outcome result ≡ decode_outcome (length text.old) label.now }
    ensures text_after { text.new ≡ buffer_after (decode_outcome (length text.old) label.now) (text_of label.now) text.old }
{
    if text.len() < TEXT_UNITS {
        return Err(ErrorCode::Capacity.at(0));
    }
    // Fixed memory, so a buffer for the most units there can be, and their count.
    let mut units = [0u16; TEXT_UNITS];
    let count = crate::decode(label, &mut units)?;
    utf16::to_points(&units, count, text)
}
