// BRACE: encoding a text as a label, and decoding a label.
#![tactic(auto)]

mod bytes;
pub mod points;

ghost use Rattle.std.specs.Prelude.{◌≡◌, length};
ghost use Rattle.basis.specs.Outcome.{bytes_outcome, buffer_after};
ghost use Rattle.brace_symbols.specs.Encoding.{label_of};
ghost use Rattle.brace.specs.Answer.{encode_outcome};

use basis::{ByteCount, ErrorCode, Refusal};
pub use brace_decoding::decode;

// Writes the label of a text.
#[tactic(auto, using(brace_symbols::proofs::Labels::put_stops), unfolding(basis::specs::Outcome::outcome_by, basis::specs::Outcome::buffer_after))]
pub fn encode(units: &[u16], label: &mut [u8]) -> Result<ByteCount, Refusal>
    ensures result_value { bytes_outcome result ≡ encode_outcome (length label.old) units.now }
    ensures label_after { label.new ≡ buffer_after (encode_outcome (length label.old) units.now) (label_of units.now) label.old }
{
    if label.len() < 63 {
        return Err(ErrorCode::Capacity.at(0));
    }
    // Fixed memory, so a buffer for the most symbols there can be, and their count.
    let mut symbols = [0u8; 63];
    let count = brace_symbols::put_symbols(units, &mut symbols)?;
    let written = bytes::put_bytes(&symbols[..count.0], label);
    Ok(ByteCount(written))
}
