// The symbols of a text: those that its label is written with.
#![tactic(auto)]

mod encoding;
mod quintets;
mod signature;

ghost use Rattle.std.specs.Prelude.{◌≡◌, length};
ghost use Rattle.basis.specs.Outcome.{bytes_outcome, buffer_after};
ghost use Rattle.brace_symbols.specs.Encoding.{symbols_of};
ghost use Rattle.brace_symbols.specs.Answer.{encode_outcome};

use basis::{ByteCount, ErrorCode, Refusal};

// Writes the symbols of a text, or refuses it.
#[tactic(auto, using(crate::proofs::Labels::put_stops), unfolding(basis::specs::Outcome::outcome_by, basis::specs::Outcome::buffer_after))]
pub fn put_symbols(units: &[u16], symbols: &mut [u8]) -> Result<ByteCount, Refusal>
    ensures result_value { bytes_outcome result ≡ encode_outcome (length symbols.old) units.now }
    ensures symbols_after { symbols.new ≡ buffer_after (encode_outcome (length symbols.old) units.now) (symbols_of units.now) symbols.old }
{
    if symbols.len() < 63 {
        return Err(ErrorCode::Capacity.at(0));
    }
    if units.len() == 0 {
        return Err(ErrorCode::Empty.at(0));
    }
    let unpaired = surrogates::units::first_unpaired(units);
    if unpaired < units.len() {
        return Err(ErrorCode::UnpairedSurrogate.at(unpaired));
    }
    if 63 < units.len() {
        return Err(ErrorCode::TooLong.at(0));
    }
    encoding::put_short(units, symbols)
}
