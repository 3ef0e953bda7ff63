// Writing LACE: the label of a text, with marks and without.
#![tactic(auto)]

mod encoding;
mod prefix;

ghost use Rattle.std.specs.Prelude.{◌≡◌, ◌≤◌, length};
ghost use Rattle.basis.specs.Outcome.{bytes_outcome, buffer_after};
ghost use Rattle.ascii.specs.Ldh.{is_host_label};
ghost use Rattle.utf16.specs.Points.{first_not_point};
ghost use Rattle.lace_encoding.specs.Encoding.{label_of};
ghost use Rattle.lace_encoding.specs.Answer.{label_outcome, encode_outcome, encode_marked_outcome};

use basis::{ByteCount, ErrorCode, Refusal};
use utf16::PointCount;

// Writes the label of a text that passed the first tests.
fn encode_checked(text: &[u32], label: &mut [u8]) -> Result<ByteCount, Refusal>
    requires { (first_not_point text.now ≡ length text.now) × (1 ≤ length text.now) × (63 ≤ length label.old) }
    ensures result_value { bytes_outcome result ≡ label_outcome is_host_label text.now }
    ensures label_after { label.new ≡ buffer_after (label_outcome is_host_label text.now) (label_of text.now) label.old }
{
    let host_label = ascii::text_is_host_label(text);
    if host_label {
        return Err(ErrorCode::HostLabel.at(0));
    }
    if encoding::MOST_UNITS < text.len() {
        return Err(ErrorCode::TooLong.at(0));
    }
    // Fixed memory, so a buffer for the most units there can be, and their count.
    let mut units = [0u16; 68];
    let count = utf16::to_units(text, PointCount(text.len()), &mut units)?;
    encoding::encode_units(&units[..count.0], label)
}

// Writes the label of a text.
pub fn encode(text: &[u32], label: &mut [u8]) -> Result<ByteCount, Refusal>
    ensures result_value { bytes_outcome result ≡ encode_outcome is_host_label (length label.old) text.now }
    ensures label_after { label.new ≡ buffer_after (encode_outcome is_host_label (length label.old) text.now) (label_of text.now) label.old }
{
    labels::check_text(text, label.len())?;
    encode_checked(text, label)
}

// Writes the label of a text with marks, which must all be 0.
pub fn encode_marked(text: &[u32], marks: &[u8], label: &mut [u8]) -> Result<ByteCount, Refusal>
    ensures result_value { bytes_outcome result ≡ encode_marked_outcome is_host_label (length label.old) text.now marks.now }
    ensures label_after { label.new ≡ buffer_after (encode_marked_outcome is_host_label (length label.old) text.now marks.now) (label_of text.now) label.old }
{
    labels::check_marked(false, text, marks, label.len())?;
    encode_checked(text, label)
}
