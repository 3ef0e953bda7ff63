// The schemes: their numbers, kinds of entry and letters, the default, and encoding and decoding by scheme.
#![tactic(auto)]

ghost use Rattle.std.specs.Prelude.{◌≡◌, length};
ghost use Rattle.basis.specs.Outcome.{bytes_outcome, buffer_after};
ghost use Rattle.utf16.specs.Answer.{points_outcome};
ghost use Rattle.scheme.specs.Naming.{number_of, kind_of, letter_of, own_number_names, number_names, kind_names};
ghost use Rattle.scheme.specs.Coding.{encode_outcome, decode_outcome, label_of, text_of};

use basis::{ByteCount, Refusal};
use utf16::PointCount;

// A scheme.
#[derive(Clone, Copy)]
pub enum Scheme {
    Altdude,
    Lace,
    Brace,
}

// The scheme's number.
// Kept as functions: of number, kind and letter a `From` could not say which it gives, and kind and letter are both bytes.
pub fn number(scheme: Scheme) -> u32
    ensures { result ≡ number_of scheme }
{
    match scheme {
        Scheme::Altdude => 1,
        Scheme::Lace => 2,
        Scheme::Brace => 3,
    }
}

// The kind of the scheme's entries.
pub fn kind(scheme: Scheme) -> u8
    ensures { result ≡ kind_of scheme }
{
    match scheme {
        Scheme::Altdude => 0x41,
        Scheme::Lace => 0x4c,
        Scheme::Brace => 0x42,
    }
}

// The scheme's letter.
pub fn letter(scheme: Scheme) -> u8
    ensures { result ≡ letter_of scheme }
{
    match scheme {
        Scheme::Altdude => 65,
        Scheme::Lace => 76,
        Scheme::Brace => 66,
    }
}

// The number that 0 stands for: the house default.
const DEFAULT: u32 = 1;

// The scheme that a number names by itself; 0 names none.
// Kept as functions: this one and `of_number` take one type, and a `TryFrom` needs an error's type where `None` says all.
#[tactic(auto, unfolding(crate::specs::Naming::own_number_names, crate::specs::Naming::first_with, crate::specs::Naming::schemes, crate::specs::Naming::number_of, crate::specs::Naming::row_of))]
pub fn of_own_number(number: u32) -> Option<Scheme>
    ensures { result ≡ own_number_names number }
{
    match number {
        1 => Some(Scheme::Altdude),
        2 => Some(Scheme::Lace),
        3 => Some(Scheme::Brace),
        _ => None,
    }
}

// The scheme that a number names; 0 names the default.
pub fn of_number(number: u32) -> Option<Scheme>
    ensures { result ≡ number_names number }
{
    if number == 0 {
        return of_own_number(DEFAULT);
    }
    of_own_number(number)
}

// The scheme that a kind of entry names.
#[tactic(auto, unfolding(crate::specs::Naming::kind_names, crate::specs::Naming::first_with, crate::specs::Naming::schemes, crate::specs::Naming::kind_of, crate::specs::Naming::row_of))]
pub fn of_kind(kind: u8) -> Option<Scheme>
    ensures { result ≡ kind_names kind }
{
    match kind {
        0x41 => Some(Scheme::Altdude),
        0x4c => Some(Scheme::Lace),
        0x42 => Some(Scheme::Brace),
        _ => None,
    }
}

// Writes the label of a text under a scheme.
pub fn encode(scheme: Scheme, text: &[u32], label: &mut [u8]) -> Result<ByteCount, Refusal>
    ensures result_value { bytes_outcome result ≡ encode_outcome scheme (length label.old) text.now }
    ensures label_after { label.new ≡ buffer_after (encode_outcome scheme (length label.old) text.now) (label_of scheme text.now) label.old }
{
    match scheme {
        Scheme::Altdude => altdude::encode(text, label),
        Scheme::Lace => lace::encode(text, label),
        Scheme::Brace => brace::points::encode(text, label),
    }
}

// Reads the text of a label under a scheme.
pub fn decode(scheme: Scheme, label: &[u8], text: &mut [u32]) -> Result<PointCount, Refusal>
    ensures result_value { points_outcome result ≡ decode_outcome scheme (length text.old) label.now }
    ensures text_after { text.new ≡ buffer_after (decode_outcome scheme (length text.old) label.now) (text_of scheme label.now) text.old }
{
    match scheme {
        Scheme::Altdude => altdude::decode(label, text),
        Scheme::Lace => lace::decode(label, text),
        Scheme::Brace => brace::points::decode(label, text),
    }
}
