// Base32 on parts of a label.
#![tactic(auto)]

mod octets;
pub mod outside;
mod quintets;

ghost use Rattle.std.specs.Prelude.{◌≡◌, length};
ghost use Rattle.basis.specs.Outcome.{bytes_outcome, buffer_after};
ghost use Rattle.alphabet.specs.Alphabet.{lace, values_of};
ghost use Rattle.base32.specs.Base32.{characters_of, to_octets};
ghost use Rattle.base32.specs.Answer.{encode_outcome, decode_outcome};

use basis::{ByteCount, ErrorCode, Refusal};

// Writes the Base32 characters of the octets.
pub fn encode(octets: &[u8], characters: &mut [u8]) -> Result<ByteCount, Refusal>
    ensures result_value { bytes_outcome result ≡ encode_outcome octets.now (length characters.old) }
    ensures characters_after { characters.new ≡ buffer_after (encode_outcome octets.now (length characters.old)) (characters_of lace octets.now) characters.old }
{
    let n = quintets::quintet_count(octets.len());
    if characters.len() < n {
        return Err(ErrorCode::Capacity.at(0));
    }
    quintets::put_characters(octets, n, characters);
    Ok(ByteCount(n))
}

// Reads Base32 characters, of either case, and writes their octets.
pub fn decode(characters: &[u8], octets: &mut [u8]) -> Result<ByteCount, Refusal>
    ensures result_value { bytes_outcome result ≡ decode_outcome characters.now (length octets.old) }
    ensures octets_after { octets.new ≡ buffer_after (decode_outcome characters.now (length octets.old)) (to_octets (values_of lace characters.now)) octets.old }
{
    let n = octets::octet_count(characters.len());
    let bad = outside::first_outside_lace(characters);
    let lawful = octets::length_lawful(characters.len());
    if octets.len() < n {
        return Err(ErrorCode::Capacity.at(0));
    }
    if bad < characters.len() {
        return Err(ErrorCode::OutsideAlphabet.at(bad));
    }
    if !lawful {
        return Err(ErrorCode::NotWellFormed.at(0));
    }
    // The spare bits are the start of the octet after the last whole one.
    let spare = octets::octet(characters, n);
    if spare != 0 {
        return Err(ErrorCode::NotWellFormed.at(0));
    }
    octets::put_octets(characters, n, octets);
    Ok(ByteCount(n))
}
