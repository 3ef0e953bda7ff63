// Host names: labels with dots between, each a host label, which is its own text, or LACE.
#![tactic(auto)]

mod reading;
mod writing;

ghost use Rattle.std.specs.Prelude.{◌≡◌, length};
ghost use Rattle.basis.specs.Outcome.{bytes_outcome, buffer_after};
ghost use Rattle.utf16.specs.Answer.{points_outcome};
ghost use Rattle.host_name.specs.Answer.{name_of, text_of_name, encode_outcome, decode_outcome};

use basis::{ByteCount, ErrorCode, Refusal};
use utf16::PointCount;

// U+002E, the only point that parts a text, and its byte in a name.
const DOT: u8 = 46;

// A name has at most so many bytes, and the text of one at most so many points; for either, room for so many is asked.
const MOST_BYTES: usize = 253;

const ROOM: usize = MOST_BYTES;

// Writes a text as a name. The labels are put together aside, so that a refusal leaves the name as it was.
pub fn encode(text: &[u32], name: &mut [u8]) -> Result<ByteCount, Refusal>
    ensures result_value { bytes_outcome result ≡ encode_outcome (length name.old) text.now }
    ensures name_after { name.new ≡ buffer_after (encode_outcome (length name.old) text.now) (name_of text.now) name.old }
{
    if name.len() < ROOM {
        return Err(ErrorCode::Capacity.at(0));
    }
    if text.len() == 0 {
        return Err(ErrorCode::Empty.at(0));
    }
    // Fixed memory, so a buffer for the most bytes there can be, and their count.
    let mut made = [0u8; 317];
    let count = writing::write_parts(text, &mut made)?;
    let n = count.0;
    if MOST_BYTES < n {
        return Err(ErrorCode::TooLong.at(0));
    }
    name[..n].copy_from_slice(&made[..n]);
    Ok(count)
}

// Reads the text of a name. It is put together aside, so that a refusal leaves the text as it was.
pub fn decode(name: &[u8], text: &mut [u32]) -> Result<PointCount, Refusal>
    ensures result_value { points_outcome result ≡ decode_outcome (length text.old) name.now }
    ensures text_after { text.new ≡ buffer_after (decode_outcome (length text.old) name.now) (text_of_name name.now) text.old }
{
    if text.len() < ROOM {
        return Err(ErrorCode::Capacity.at(0));
    }
    if name.len() == 0 {
        return Err(ErrorCode::Empty.at(0));
    }
    if MOST_BYTES < name.len() {
        return Err(ErrorCode::TooLong.at(0));
    }
    // Fixed memory, so a buffer for the most points there can be, and their count.
    let mut made = [0u32; 316];
    let count = reading::read_parts(name, &mut made)?;
    let n = count.0;
    text[..n].copy_from_slice(&made[..n]);
    Ok(count)
}
