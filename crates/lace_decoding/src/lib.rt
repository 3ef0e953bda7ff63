// Reading LACE: the text of a label, with marks and without.
#![tactic(auto)]

pub mod decoding;
mod marking;

ghost use Rattle.std.specs.Prelude.{◌≡◌, length};
ghost use Rattle.basis.specs.Outcome.{buffer_after};
ghost use Rattle.utf16.specs.Answer.{points_outcome};
ghost use Rattle.ascii.specs.Ldh.{is_host_label};
ghost use Rattle.lace_decoding.specs.Decoding.{text_of, marks_of};
ghost use Rattle.lace_decoding.specs.Answer.{decode_outcome, decode_marked_outcome};

use basis::{ErrorCode, Refusal};
use utf16::PointCount;

// Reads the text of a label.
pub fn decode(label: &[u8], text: &mut [u32]) -> Result<PointCount, Refusal>
    ensures result_value { points_outcome result ≡ decode_outcome is_host_label (length text.old) label.now }
    ensures text_after { text.new ≡ buffer_after (decode_outcome is_host_label (length text.old) label.now) (text_of label.now) text.old }
{
    let prefixed = lace_format::has_prefix(label);
    labels::check_label(label.len(), text.len())?;
    if !prefixed {
        return Err(ErrorCode::NoPrefix.at(0));
    }
    // Fixed memory, so a buffer for the most octets there can be, and their count.
    let mut octets = [0u8; 36];
    let count = base32::decode(&label[4..], &mut octets).map_err(decoding::after_prefix)?;
    decoding::decode_octets(&octets[..count.0], text)
}

// The room that is asked for marks.
const MARKS_ROOM: usize = 63;

// Reads the text of a label, and marks of 0.
pub fn decode_marked(
    label: &[u8],
    text: &mut [u32],
    marks: &mut [u8],
) -> Result<PointCount, Refusal>
    ensures result_value { points_outcome result ≡ decode_marked_outcome is_host_label (length text.old) (length marks.old) label.now }
    ensures text_after { text.new ≡ buffer_after (decode_marked_outcome is_host_label (length text.old) (length marks.old) label.now) (text_of label.now) text.old }
    ensures marks_after { marks.new ≡ buffer_after (decode_marked_outcome is_host_label (length text.old) (length marks.old) label.now) (marks_of label.now) marks.old }
{
    if marks.len() < MARKS_ROOM {
        return Err(ErrorCode::Capacity.at(0));
    }
    let count = decode(label, text)?;
    marking::put_no_marks(count.0, marks);
    Ok(count)
}
