// What labels are made of: letters and their case, LDH, hyphens at an edge, host labels, and a prefix.
#![tactic(auto)]

ghost use Rattle.std.specs.Prelude.{◌≡◌, ℕ, map};
ghost use Rattle.ascii.specs.Case.{is_capital, small, capital};
ghost use Rattle.ascii.specs.Ldh.{is_ldh, is_all_ldh, has_edge_hyphen, is_host_label};
ghost use Rattle.std.specs.Option.{unwrap_or, option_map, option_copied};
ghost use Rattle.ascii.specs.Prefix.{has_prefix};

// An element of a row: a byte of a label, a unit or a point. Its number says what it is.
// No `Into<u32>`: the library's clause for it is a relation, and the definitions that rows are held to need a function.
pub trait Element: Copy {
    ghost number: { Self → ℕ };

    fn number(self) -> u32
        ensures { result ≡ number self };
}

impl Element for u8 {
    ghost number = { λ byte. byte };

    fn number(self) -> u32 {
        self as u32
    }
}

impl Element for u16 {
    ghost number = { λ unit. unit };

    fn number(self) -> u32 {
        self as u32
    }
}

impl Element for u32 {
    ghost number = { λ point. point };

    fn number(self) -> u32 {
        self
    }
}

// The small form of A to Z, any other byte itself.
#[tactic(auto, using(crate::proofs::Case::case_by_range))]
pub fn small_form(byte: u8) -> u8
    ensures { result ≡ small byte }
{
    byte.to_ascii_lowercase()
}

// Whether the byte is one of A to Z.
#[tactic(auto, using(crate::proofs::Case::case_by_range))]
pub fn is_capital(byte: u8) -> bool
    ensures { result ≡ is_capital byte }
{
    byte.is_ascii_uppercase()
}

// The capital form of a to z, any other byte itself.
#[tactic(auto, using(crate::proofs::Case::case_by_range))]
pub fn capital_form(byte: u8) -> u8
    ensures { result ≡ capital byte }
{
    byte.to_ascii_uppercase()
}

// Whether the number is a hyphen, a digit, A to Z or a to z.
#[tactic(auto, using(crate::proofs::Ldh::ldh_by_range))]
pub fn is_ldh(number: u32) -> bool
    ensures { result ≡ is_ldh number }
{
    matches!(number, 48..=57 | 65..=90 | 97..=122) || number == 45
}

// Whether all elements are LDH.
fn all_ldh<T: Element>(row: &[T]) -> bool
    ensures { result ≡ is_all_ldh (map T.number row.now) }
{
    row.iter().map(|&element| element.number()).all(is_ldh)
}

// The number of the element, 0 where there is none.
fn number_of<T: Element>(element: Option<&T>) -> u32
    ensures { result ≡ unwrap_or (option_map T.number (option_copied element.entry)) 0 }
{
    element.map_or(0, |element| element.number())
}

// Whether the first or the last element is a hyphen; an empty row has none.
fn has_edge_hyphen<T: Element>(row: &[T]) -> bool
    ensures { result ≡ has_edge_hyphen (map T.number row.now) }
{
    number_of(row.first()) == 45 || number_of(row.last()) == 45
}

// Whether the elements are a host label: 1 to 63 of them, no hyphen at either end, all LDH.
#[tactic(auto, using(crate::proofs::HostLabel::host_label_tests))]
fn are_host_label<T: Element>(row: &[T]) -> bool
    ensures { result ≡ is_host_label (map T.number row.now) }
{
    if row.is_empty() {
        return false;
    }
    if 63 < row.len() {
        return false;
    }
    if has_edge_hyphen(row) {
        return false;
    }
    all_ldh(row)
}

// Whether all points are LDH.
pub fn text_all_ldh(text: &[u32]) -> bool
    ensures { result ≡ is_all_ldh text.now }
{
    all_ldh(text)
}

// Whether the first or the last point is a hyphen; an empty text has none.
pub fn text_has_edge_hyphen(text: &[u32]) -> bool
    ensures { result ≡ has_edge_hyphen text.now }
{
    has_edge_hyphen(text)
}

// Whether the first or the last byte is a hyphen; an empty label has none.
pub fn label_has_edge_hyphen(label: &[u8]) -> bool
    ensures { result ≡ has_edge_hyphen label.now }
{
    has_edge_hyphen(label)
}

// Whether the points are a host label: 1 to 63 of them, no hyphen at either end, all LDH.
pub fn text_is_host_label(text: &[u32]) -> bool
    ensures { result ≡ is_host_label text.now }
{
    are_host_label(text)
}

// Whether the units are a host label: 1 to 63 of them, no hyphen at either end, all LDH.
pub fn units_are_host_label(units: &[u16]) -> bool
    ensures { result ≡ is_host_label units.now }
{
    are_host_label(units)
}

// Whether the label begins with the prefix, case ignored.
pub fn has_prefix(label: &[u8], prefix: &[u8]) -> bool
    ensures { result ≡ has_prefix prefix.now label.now }
{
    if label.len() < prefix.len() {
        return false;
    }
    label.iter().zip(prefix).all(|(&byte, &expected)| small_form(byte) == small_form(expected))
}
