// The three alphabets as tables indexed by quintet, and the look-up of a byte: its value, whatever its case, by tables indexed by the
// byte, and whether it is a capital.
#![tactic(auto)]

mod altdude_values;
mod lace_values;

ghost use Rattle.std.specs.Prelude.{◌≡◌};
ghost use Rattle.basis.specs.Rows.{at};
ghost use Rattle.alphabet.specs.Alphabet.{altdude, lace, brace, character_of, value_of, with_case, look_up};

const ALTDUDE: [u8; 32] = *b"abcdefghijkmnpqrstuvwxyz23456789";

const LACE: [u8; 32] = *b"abcdefghijklmnopqrstuvwxyz234567";

const BRACE: [u8; 32] = *b"23456789abcdefghijkmnpqrstuvwxyz";

// A byte as it was looked up: its value, 32 where it has none, and whether it is one of A to Z.
// The value is no Option: each `*_look_up` promises `result ≡ look_up _ byte`, a record whose value is 32 where there is none.
#[derive(Drop)]
pub struct Character {
    pub value: u8,
    pub capital: bool,
}

// The value of a byte by a table of values.
fn value_in(table: &[u8; 256], byte: u8) -> u8
    ensures { result ≡ at table.now byte }
{
    table[byte as usize]
}

// The value of a byte in AltDUDE's alphabet, 32 where it has none.
fn altdude_value(byte: u8) -> u8
    ensures { result ≡ value_of altdude byte }
{
    value_in(&altdude_values::VALUES, byte)
}

// The value of a byte in LACE's alphabet, 32 where it has none.
fn lace_value(byte: u8) -> u8
    ensures { result ≡ value_of lace byte }
{
    value_in(&lace_values::VALUES, byte)
}

// The value of a byte in BRACE's alphabet, 32 where it has none: its characters are AltDUDE's, the digits first.
#[tactic(auto, using(crate::proofs::Tables::brace_by_value))]
fn brace_value(byte: u8) -> u8
    ensures { result ≡ value_of brace byte }
{
    let value = altdude_value(byte);
    if value == 32 {
        return 32;
    }
    (value + 8) % 32
}

// A value with the case of its byte.
fn with_case(value: u8, byte: u8) -> Character
    ensures { result ≡ with_case value byte }
{
    Character {
        value,
        capital: ascii::is_capital(byte),
    }
}

// A byte looked up in AltDUDE's alphabet.
pub fn altdude_look_up(byte: u8) -> Character
    ensures { result ≡ look_up altdude byte }
{
    with_case(altdude_value(byte), byte)
}

// A byte looked up in LACE's alphabet.
pub fn lace_look_up(byte: u8) -> Character
    ensures { result ≡ look_up lace byte }
{
    with_case(lace_value(byte), byte)
}

// A byte looked up in BRACE's alphabet.
pub fn brace_look_up(byte: u8) -> Character
    ensures { result ≡ look_up brace byte }
{
    with_case(brace_value(byte), byte)
}

// An alphabet's character for a quintet, 0 for 32 or more.
#[tactic(auto, unfolding(crate::specs::Alphabet::character_of))]
fn table_character(alphabet: &[u8], quintet: u8) -> u8
    ensures { result ≡ character_of alphabet.now quintet }
{
    alphabet.get(quintet as usize).copied().unwrap_or(0)
}

// AltDUDE's character for a quintet, 0 for 32 or more.
#[tactic(auto, unfolding(crate::specs::Alphabet::altdude))]
pub fn altdude_character(quintet: u8) -> u8
    ensures { result ≡ character_of altdude quintet }
{
    table_character(&ALTDUDE, quintet)
}

// LACE's character for a quintet, 0 for 32 or more.
#[tactic(auto, unfolding(crate::specs::Alphabet::lace))]
pub fn lace_character(quintet: u8) -> u8
    ensures { result ≡ character_of lace quintet }
{
    table_character(&LACE, quintet)
}

// BRACE's character for a quintet, 0 for 32 or more.
#[tactic(auto, unfolding(crate::specs::Alphabet::brace))]
pub fn brace_character(quintet: u8) -> u8
    ensures { result ≡ character_of brace quintet }
{
    table_character(&BRACE, quintet)
}
