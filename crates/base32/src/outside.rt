// Bytes that are no characters of LACE's alphabet.
ghost use Rattle.std.specs.Prelude.{◌≡◌};
ghost use Rattle.alphabet.specs.Alphabet.{lace, is_character};
ghost use Rattle.base32.specs.Answer.{first_outside};

// Whether the byte has a value in LACE's alphabet.
#[tactic(auto, unfolding(alphabet::specs::Alphabet::is_character))]
fn is_character(byte: u8) -> bool
    ensures { result ≡ is_character lace byte }
{
    alphabet::lace_look_up(byte).value < 32
}

// The index of the first byte that has no value in LACE's alphabet, or the length.
pub fn first_outside_lace(bytes: &[u8]) -> usize
    ensures { result ≡ first_outside lace bytes.now }
{
    bytes
        .iter()
        .position(|&byte| !is_character(byte))
        .unwrap_or(bytes.len())
}
