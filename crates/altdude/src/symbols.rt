// Symbols and bytes, and the scans over them.
ghost use Rattle.std.specs.Prelude.{◌≡◌};
ghost use Rattle.altdude.specs.Symbols.{symbol_of, byte_of, is_character, first_outside};

// The symbol of a byte: 45 for a hyphen, else its value, 32 where it has none.
pub(crate) fn symbol_of(byte: u8) -> u8
    ensures { result ≡ symbol_of byte }
{
    if byte == 45 {
        return 45;
    }
    alphabet::altdude_look_up(byte).value
}

// The byte of a symbol.
pub(crate) fn byte_of(symbol: u8) -> u8
    ensures { result ≡ byte_of symbol }
{
    if symbol == 45 {
        return 45;
    }
    alphabet::altdude_character(symbol)
}

// Whether the byte is a hyphen or one of the 32.
#[tactic(auto, unfolding(crate::specs::Symbols::is_character))]
fn is_character(byte: u8) -> bool
    ensures { result ≡ is_character byte }
{
    symbol_of(byte) != 32
}

// The index of the first byte that is neither a hyphen nor one of the 32, or the length.
pub(crate) fn first_outside(label: &[u8]) -> usize
    ensures { result ≡ first_outside label.now }
{
    label
        .iter()
        .position(|&byte| !is_character(byte))
        .unwrap_or(label.len())
}
