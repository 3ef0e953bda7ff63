// Which style a text has.
#![tactic(auto)]

ghost use Rattle.std.specs.Prelude.{◌≡◌, [], ◌∷◌, ◌++◌, ◌+◌, ◌≤◌, ◌<◌, ◌/◌, eqb, length, take, drop};
ghost use Rattle.basis.specs.Internal.{Stored};
ghost use Rattle.basis.specs.Tests.{every_in, pick};
ghost use Rattle.brace_choice.specs.Choice.{codes_of, count_in, mixed_cost, no_row_cost, is_better, best_of, mixed_or_no_row, style_for, style_of};

use brace_format::style;
use brace_format::style::Style;

// Stores a unit at an index if it is a code, and answers the index after it.
fn put_if_code(unit: u16, codes: &mut [u16], at: usize) -> usize
    requires { at < length codes.old }
    ensures { Stored codes.old at (codes_of (unit ∷ [])) codes.new result }
{
    if ascii::is_ldh(unit as u32) {
        return at;
    }
    codes[at] = unit;
    at + 1
}

// Stores the codes of a text, and answers how many.
fn put_codes(units: &[u16], codes: &mut [u16]) -> usize
    requires { length units.now ≤ length codes.old }
    ensures value { result ≡ length (codes_of units.now) }
    ensures codes_after { codes.new ≡ codes_of units.now ++ drop (length (codes_of units.now)) codes.old }
{
    let mut at = 0;
    for &unit in units {
        at = put_if_code(unit, codes, at);
    }
    at
}

// The codes of a text, at most 63.
#[derive(Clone, Copy)]
struct Codes<'a> {
    units: &'a [u16],
    ghost few: { length units.now ≤ 63 },
}

impl Codes<'_> {
    // How many codes are in the half-row.
    fn count_in(&self, half: u16) -> u32
        ensures value { result ≡ count_in half self.now.units.now }
        ensures upper_bound { result ≤ length self.now.units.now }
    {
        let mut n = 0;
        // Kept as a loop over `u32`: a chain of `filter` and `count` counts in `usize`, code by code, and took half as long again.
        for &code in self.units {
            n += u32::from(code / 128 == half);
        }
        n
    }

    // How many characters mixed style takes with a half-row, the draft's M.
    fn mixed_cost(&self, half: u16) -> u32
        ensures { result ≡ mixed_cost self.now.units.now half }
    {
        let n = self.units.len() as u32;
        let in_half = self.count_in(half);
        let in_other = self.count_in(style::other_half(half));
        3 + (18 * n - 10 * in_half - 9 * in_other) / 5
    }

    // How many characters no-row style takes, the draft's M'.
    #[tactic(auto, unfolding(crate::specs::Choice::no_row_cost))]
    fn no_row_cost(&self) -> u32
        ensures { result ≡ no_row_cost self.now.units.now }
    {
        (6 + 16 * (self.units.len() as u32)) / 5
    }

    // Whether the half-row g is better than h.
    #[tactic(auto, using(crate::proofs::HalfRows::better_rules))]
    fn is_better(&self, g: u16, h: u16) -> bool
        ensures { result ≡ is_better self.now.units.now g h }
    {
        let with_g = self.mixed_cost(g);
        let with_h = self.mixed_cost(h);
        if with_g < with_h {
            return true;
        }
        if with_g == with_h {
            return g < h;
        }
        false
    }

    // The better of two half-rows.
    fn better(&self, g: u16, h: u16) -> u16
        ensures { result ≡ pick (is_better self.now.units.now g h) g h }
    {
        if self.is_better(g, h) { g } else { h }
    }

    // The best of a half-row and those of the codes.
    fn best_of(&self, first: u16) -> u16
        ensures { result ≡ best_of self.now.units.now first self.now.units.now }
    {
        self.units
            .iter()
            .fold(first, |best, &code| self.better(code / 128, best))
    }

    // Mixed style with the half-row if that takes fewer characters than no-row style.
    #[tactic(auto, unfolding(crate::specs::Choice::mixed_or_no_row))]
    fn mixed_or_no_row(&self, half: u16) -> Style
        ensures { result ≡ mixed_or_no_row self.now.units.now half }
    {
        if self.mixed_cost(half) < self.no_row_cost() {
            return Style::Mixed(half);
        }
        Style::NoRow
    }

    // Whether all codes are in the part with this number, of the parts of so many units.
    fn are_all_in(&self, size: u16, part: u16) -> bool
        requires { 0 < size }
        ensures { result ≡ every_in (λ x. eqb (x / size) part) self.now.units.now }
    {
        self.units.iter().all(|&code| code / size == part)
    }

    // The style for the codes.
    fn style(&self) -> Style
        ensures { result ≡ style_for self.now.units.now }
    {
        if self.units.len() == 0 {
            return Style::NoRow;
        }
        let first = self.units[0];
        if self.are_all_in(128, first / 128) {
            return Style::HalfRow(first / 128);
        }
        if self.are_all_in(256, first / 256) {
            return Style::Row(first / 256);
        }
        self.mixed_or_no_row(self.best_of(first / 128))
    }
}

// The style of a text of at most 63 units.
// The codes are a buffer and a count, and no Vec: the library has no heap.
fn short_style(units: &[u16]) -> Style
    requires { length units.now ≤ 63 }
    ensures { result ≡ style_of units.now }
{
    let mut codes = [0u16; 63];
    let n = put_codes(units, &mut codes);
    let codes = Codes { units: &codes[..n] };
    codes.style()
}

// The style of a text by its first 63 units; no longer text has a label.
pub fn style_of(units: &[u16]) -> Style
    ensures { result ≡ style_of (take 63 units.now) }
{
    if 63 < units.len() {
        return short_style(&units[..63]);
    }
    short_style(units)
}
