// Reading a label: the text of its body, and the test by writing again.
ghost use Rattle.std.specs.Prelude.{◌≤◌, ◌<◌, ◌≡◌, true, false, ◌++◌, length, drop};
ghost use Rattle.basis.specs.Tests.{both};
ghost use Rattle.basis.specs.Outcome.{buffer_after};
ghost use Rattle.utf16.specs.Answer.{units_outcome};
ghost use Rattle.alphabet.specs.Alphabet.{brace};
ghost use Rattle.copying.specs.Symbols.{is_for, are_for};
ghost use Rattle.brace_format.specs.Signature.{is_signed};
ghost use Rattle.brace_symbols.specs.Encoding.{symbols_of};
ghost use Rattle.brace_text.specs.Decoding.{text_of};
ghost use Rattle.brace_symbols.specs.Answer.{encode_outcome};
ghost use Rattle.brace_decoding.specs.Answer.{is_done, first_not_ldh, decode_outcome};

use basis::{ErrorCode, Refusal};
use utf16::UnitCount;

// Whether a byte is read as a symbol: a coded one in either case, a copied one byte for byte.
fn is_for(symbol: u8, byte: u8) -> bool
    ensures { result ≡ is_for brace symbol byte }
{
    if symbol < 32 {
        return alphabet::brace_look_up(byte).value == symbol;
    }
    byte == symbol
}

// Whether the bytes are read as the symbols.
fn are_for(symbols: &[u8], bytes: &[u8]) -> bool
    ensures { result ≡ are_for brace symbols.now bytes.now }
{
    if symbols.len() != bytes.len() {
        return false;
    }
    symbols
        .iter()
        .zip(bytes)
        .all(|(&symbol, &byte)| is_for(symbol, byte))
}

// Whether the units may be written, and the label is theirs. If they may not, no symbol is written, and a label of one byte or more
// is not read as no symbols.
fn has_label(units: &[u16], label: &[u8]) -> bool
    requires { 0 < length label.now }
    ensures { result ≡ both (is_done (encode_outcome 63 units.now)) (are_for brace (symbols_of units.now) label.now) }
{
    // Fixed memory, so a buffer for the most symbols there can be, and their count.
    let mut symbols = [0u8; 63];
    let answer = brace_symbols::put_symbols(units, &mut symbols);
    let count = basis::bytes_written(answer);
    are_for(&symbols[..count], label)
}

// Copies bytes to the front of a buffer of units. As put_plain of brace_symbols from units to bytes: one function would be passed how
// an element converts, and be no plainer.
fn copy_bytes(label: &[u8], units: &mut [u16])
    requires { length label.now ≤ length units.old }
    ensures { units.new ≡ label.now ++ drop (length label.now) units.old }
{
    for (i, &byte) in label.iter().enumerate() {
        units[i] = byte as u16;
    }
}

// The index of the first byte that is not LDH, or the length.
fn first_not_ldh(label: &[u8]) -> usize
    ensures { result ≡ first_not_ldh label.now }
{
    label
        .iter()
        .position(|&byte| !ascii::is_ldh(byte as u32))
        .unwrap_or(label.len())
}

// Reads a label of 1 to 63 bytes that ends with the signature.
pub(crate) fn decode_signed(label: &[u8], units: &mut [u16]) -> Result<UnitCount, Refusal>
    requires in_bounds { (63 ≤ length units.old) × (0 < length label.now) × (length label.now ≤ 63) }
    requires label_value { is_signed label.now ≡ true }
    ensures result_value { units_outcome result ≡ decode_outcome (length units.old) label.now }
    ensures units_after { units.new ≡ buffer_after (decode_outcome (length units.old) label.now) (text_of label.now) units.old }
{
    // Fixed memory, so a buffer for the most units there can be, and their count.
    let mut text = [0u16; 63];
    let count = brace_text::read_body(&label[..label.len() - 4], &mut text)?;
    let row = &text[..count.0];
    if !has_label(row, label) {
        return Err(ErrorCode::NotWellFormed.at(0));
    }
    units[..count.0].copy_from_slice(row);
    Ok(count)
}

// Reads a label of 1 to 63 bytes without the signature: a host label, which is its own text.
pub(crate) fn decode_plain(label: &[u8], units: &mut [u16]) -> Result<UnitCount, Refusal>
    requires in_bounds { (63 ≤ length units.old) × (0 < length label.now) × (length label.now ≤ 63) }
    requires label_value { is_signed label.now ≡ false }
    ensures result_value { units_outcome result ≡ decode_outcome (length units.old) label.now }
    ensures units_after { units.new ≡ buffer_after (decode_outcome (length units.old) label.now) (text_of label.now) units.old }
{
    let bad = first_not_ldh(label);
    let edge_hyphen = ascii::label_has_edge_hyphen(label);
    if bad < label.len() {
        return Err(ErrorCode::OutsideAlphabet.at(bad));
    }
    if edge_hyphen {
        return Err(ErrorCode::EdgeHyphen.at(0));
    }
    copy_bytes(label, units);
    Ok(UnitCount(label.len()))
}
