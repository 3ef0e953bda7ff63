// AltDUDE: encoding a text as a label, and decoding a label, with marks and without.
#![tactic(auto)]

mod decoding;
mod encoding;
mod marking;
mod symbols;

ghost use Rattle.std.specs.Prelude.{◌≡◌, ◌≤◌, length};
ghost use Rattle.basis.specs.Outcome.{bytes_outcome, buffer_after};
ghost use Rattle.utf16.specs.Answer.{points_outcome};
ghost use Rattle.altdude.specs.Encoding.{label_of};
ghost use Rattle.altdude.specs.Decoding.{text_of};
ghost use Rattle.altdude.specs.Marks.{marked, marks_of};
ghost use Rattle.altdude.specs.Answer.{label_outcome, encode_outcome, encode_marked_outcome, decode_outcome, decode_marked_outcome};

use basis::{ByteCount, ErrorCode, Refusal};
use utf16::PointCount;

// The marks of a text without marks: a mark that is not there is 0.
const NO_MARKS: [u8; 0] = [];

// Writes the label of a text that passed the first tests, with marks.
#[tactic(auto, using(crate::proofs::Tested::long_rules))]
fn encode_checked(text: &[u32], marks: &[u8], label: &mut [u8]) -> Result<ByteCount, Refusal>
    requires { 63 ≤ length label.old }
    ensures result_value { bytes_outcome result ≡ label_outcome text.now }
    ensures label_after { label.new ≡ buffer_after (label_outcome text.now) (marked marks.now (label_of text.now)) label.old }
{
    let edge = ascii::text_has_edge_hyphen(text);
    let length = encoding::label_length(text);
    if edge {
        return Err(ErrorCode::EdgeHyphen.at(0));
    }
    if 63 < length {
        return Err(ErrorCode::TooLong.at(0));
    }
    let count = encoding::put_label(text, label);
    marking::raise_marked(marks, &mut label[..count]);
    Ok(ByteCount(count))
}

// Writes the label of a text.
pub fn encode(text: &[u32], label: &mut [u8]) -> Result<ByteCount, Refusal>
    ensures result_value { bytes_outcome result ≡ encode_outcome (length label.old) text.now }
    ensures label_after { label.new ≡ buffer_after (encode_outcome (length label.old) text.now) (label_of text.now) label.old }
{
    labels::check_text(text, label.len())?;
    encode_checked(text, &NO_MARKS, label)
}

// Writes the label of a text with marks.
pub fn encode_marked(text: &[u32], marks: &[u8], label: &mut [u8]) -> Result<ByteCount, Refusal>
    ensures result_value { bytes_outcome result ≡ encode_marked_outcome (length label.old) text.now marks.now }
    ensures label_after { label.new ≡ buffer_after (encode_marked_outcome (length label.old) text.now marks.now) (marked marks.now (label_of text.now)) label.old }
{
    labels::check_marked(true, text, marks, label.len())?;
    encode_checked(text, marks, label)
}

// Reads the text of a label.
pub fn decode(label: &[u8], text: &mut [u32]) -> Result<PointCount, Refusal>
    ensures result_value { points_outcome result ≡ decode_outcome (length text.old) label.now }
    ensures text_after { text.new ≡ buffer_after (decode_outcome (length text.old) label.now) (text_of label.now) text.old }
{
    labels::check_label(label.len(), text.len())?;
    let bad = symbols::first_outside(label);
    let edge_hyphen = ascii::label_has_edge_hyphen(label);
    let readable = decoding::is_readable(label);
    if bad < label.len() {
        return Err(ErrorCode::OutsideAlphabet.at(bad));
    }
    if edge_hyphen {
        return Err(ErrorCode::EdgeHyphen.at(0));
    }
    if !readable {
        return Err(ErrorCode::NotWellFormed.at(0));
    }
    Ok(PointCount(decoding::put_text(label, text)))
}

// Reads the text and the marks of a label.
pub fn decode_marked(
    label: &[u8],
    text: &mut [u32],
    marks: &mut [u8],
) -> Result<PointCount, Refusal>
    ensures result_value { points_outcome result ≡ decode_marked_outcome (length text.old) (length marks.old) label.now }
    ensures text_after { text.new ≡ buffer_after (decode_marked_outcome (length text.old) (length marks.old) label.now) (text_of label.now) text.old }
    ensures marks_after { marks.new ≡ buffer_after (decode_marked_outcome (length text.old) (length marks.old) label.now) (marks_of label.now) marks.old }
{
    if marks.len() < 63 {
        return Err(ErrorCode::Capacity.at(0));
    }
    let count = decode(label, text)?;
    marking::put_marks(label, marks);
    Ok(count)
}
