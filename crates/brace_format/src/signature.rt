// The signature at the end of every label that is not plain.
ghost use Rattle.std.specs.Prelude.{◌≡◌, [], ◌∷◌, map};
ghost use Rattle.alphabet.specs.Alphabet.{brace, value_of};
ghost use Rattle.copying.specs.Symbols.{are_for};
ghost use Rattle.brace_format.specs.Signature.{signature, is_signed};

use ascii::Element;

// The value of a number in BRACE's alphabet, 32 where it has none.
#[tactic(auto, using(crate::proofs::Signed::value_rules))]
fn value_of(number: u32) -> u8
    ensures { result ≡ value_of brace number }
{
    u8::try_from(number).map_or(32, |byte| alphabet::brace_look_up(byte).value)
}

// Whether four numbers are the signature, in either case.
#[tactic(auto, using(crate::proofs::Signed::signature_rules))]
pub fn is_signature(first: u32, second: u32, third: u32, fourth: u32) -> bool
    ensures { result ≡ are_for brace signature (first ∷ second ∷ third ∷ fourth ∷ []) }
{
    if first != 45 {
        return false;
    }
    if value_of(second) != 6 {
        return false;
    }
    if value_of(third) != 22 {
        return false;
    }
    value_of(fourth) == 7
}

// Whether a row ends with the signature, in either case.
pub fn is_signed<T: Element>(row: &[T]) -> bool
    ensures { result ≡ is_signed (map T.number row.now) }
{
    let n = row.len();
    if n < 4 {
        return false;
    }
    is_signature(
        row[n - 4].number(),
        row[n - 3].number(),
        row[n - 2].number(),
        row[n - 1].number(),
    )
}
