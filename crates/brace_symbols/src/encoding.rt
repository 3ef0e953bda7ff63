// Writing the symbols of a text.
ghost use Rattle.std.specs.Prelude.{◌≡◌, not, true, false, [], ◌∷◌, ◌++◌, ◌+◌, ◌≤◌, ◌<◌, min, ltb, length, drop, get_or};
ghost use Rattle.basis.specs.Internal.{Stored};
ghost use Rattle.basis.specs.Outcome.{bytes_outcome, done, refused_if, buffer_after};
ghost use Rattle.ascii.specs.Ldh.{is_all_ldh};
ghost use Rattle.copying.specs.Modes.{copying_after, switch_if};
ghost use Rattle.brace_format.specs.Signature.{signature};
ghost use Rattle.brace_format.specs.Style.{head_width, width_of, code_of};
ghost use Rattle.brace_symbols.specs.Encoding.{spare_count, code_quintets, unit_symbols, out_after, symbols_from, body_of, is_plain, symbols_of};

use crate::{quintets, signature};
use basis::{ByteCount, ErrorCode, Refusal};
use brace_format::style;
use brace_format::style::Style;

// Where writing stands in a text: its style, whether letters are being copied, and how many bits of the code that follows are out.
#[derive(Clone, Copy)]
struct Progress {
    style: Style,
    copying: bool,
    out: u32,
    ghost few: { out ≤ 4 },
}

// 1 if a hyphen changes between coded and copied, else 0.
#[tactic(auto, unfolding(copying::specs::Modes::switch_if))]
fn switch_length(change: bool) -> usize
    ensures value { result ≡ length (switch_if change []) }
    ensures upper_bound { result ≤ 1 }
{
    if change { 1 } else { 0 }
}

// Stores a letter or digit that is copied, after a hyphen if none was being copied, and answers the index after it.
fn put_letter(copying: bool, unit: u16, symbols: &mut [u8], at: usize) -> usize
    requires unit_bound { unit < 256 }
    requires unit_in_bounds { at + length (switch_if (not copying) (unit ∷ [])) ≤ length symbols.old }
    ensures { Stored symbols.old at (switch_if (not copying) (unit ∷ [])) symbols.new result }
{
    if copying {
        symbols[at] = unit as u8;
        return at + 1;
    }
    symbols[at] = 45;
    symbols[at + 1] = unit as u8;
    at + 2
}

impl Progress {
    // Before the first unit.
    fn after_head(style: Style) -> Self
        ensures styled { result.style ≡ style }
        ensures not_copying { result.copying ≡ false }
        ensures spare { result.out ≡ spare_count 0 (head_width style) }
    {
        let out = quintets::spare_count(0, style::head_width(style));
        Progress {
            style,
            copying: false,
            out,
        }
    }

    // How many bits are out after a unit.
    fn out_after(self, unit: u16) -> u32
        ensures value { result ≡ out_after self.style self.out unit }
        ensures upper_bound { result ≤ 4 }
    {
        if ascii::is_ldh(unit as u32) {
            return self.out;
        }
        quintets::spare_count(self.out, style::width(self.style, unit))
    }

    // After a unit.
    fn after(self, unit: u16) -> Self
        ensures styled { result.style ≡ self.style }
        ensures copies { result.copying ≡ copying_after self.copying unit }
        ensures spare { result.out ≡ out_after self.style self.out unit }
    {
        let copying = copying::copying_after(self.copying, unit as u32);
        let out = self.out_after(unit);
        Progress {
            style: self.style,
            copying,
            out,
        }
    }

    // How many symbols a unit has.
    fn unit_length(self, unit: u16) -> usize
        ensures value { result ≡ length (unit_symbols self.style self.copying self.out unit [] []) }
        ensures upper_bound { result ≤ 5 }
    {
        if unit == 45 {
            return 2;
        }
        if ascii::is_ldh(unit as u32) {
            return switch_length(!self.copying) + 1;
        }
        let count = quintets::quintet_count(self.out, style::width(self.style, unit));
        switch_length(self.copying) + count as usize
    }

    // Stores the symbols of a unit that is not LDH, before the units that follow, and answers the index after them.
    fn put_coded(self, unit: u16, next: &[u16], symbols: &mut [u8], at: usize) -> usize
        requires { at + length (switch_if self.copying (code_quintets self.style self.out (width_of self.style unit) (code_of self.style unit) next.now [])) ≤ length symbols.old }
        ensures { Stored symbols.old at (switch_if self.copying (code_quintets self.style self.out (width_of self.style unit) (code_of self.style unit) next.now [])) symbols.new result }
    {
        let width = style::width(self.style, unit);
        let code = style::code(self.style, unit);
        if self.copying {
            symbols[at] = 45;
            return quintets::put_code(self.style, self.out, width, code, next, symbols, at + 1);
        }
        quintets::put_code(self.style, self.out, width, code, next, symbols, at)
    }

    // Stores the symbols of a unit, before the units that follow, and answers the index after them.
    fn put_unit(self, unit: u16, next: &[u16], symbols: &mut [u8], at: usize) -> usize
        requires { at + length (unit_symbols self.style self.copying self.out unit next.now []) ≤ length symbols.old }
        ensures { Stored symbols.old at (unit_symbols self.style self.copying self.out unit next.now []) symbols.new result }
    {
        if unit == 45 {
            symbols[at] = 45;
            symbols[at + 1] = 45;
            return at + 2;
        }
        if ascii::is_ldh(unit as u32) {
            return put_letter(self.copying, unit, symbols, at);
        }
        self.put_coded(unit, next, symbols, at)
    }
}

// How many symbols the label of a text that is not plain has, or 64 where it has more than 63.
fn signed_length(style: Style, units: &[u16]) -> usize
    ensures { result ≡ min 64 (length (body_of style units.now ++ signature)) }
{
    let mut n = 4 + quintets::quintet_count(0, style::head_width(style)) as usize;
    let mut progress = Progress::after_head(style);
    for &unit in units {
        n += progress.unit_length(unit);
        if 63 < n {
            return 64;
        }
        progress = progress.after(unit);
    }
    n
}

// Stores the symbols of the units after the head, from an index on, and answers the index after them.
fn put_units(style: Style, units: &[u16], symbols: &mut [u8], at: usize) -> usize
    requires { at + length (symbols_from style false (spare_count 0 (head_width style)) units.now) ≤ length symbols.old }
    ensures { Stored symbols.old at (symbols_from style false (spare_count 0 (head_width style)) units.now) symbols.new result }
{
    let mut progress = Progress::after_head(style);
    let mut to = at;
    for (i, &unit) in units.iter().enumerate() {
        to = progress.put_unit(unit, &units[i + 1..], symbols, to);
        progress = progress.after(unit);
    }
    to
}

// Stores the head, the units and the signature, and answers the number of symbols.
fn put_signed(style: Style, units: &[u16], symbols: &mut [u8]) -> usize
    requires { length (body_of style units.now ++ signature) ≤ length symbols.old }
    ensures value { result ≡ length (body_of style units.now ++ signature) }
    ensures symbols_after { symbols.new ≡ (body_of style units.now ++ signature) ++ drop (length (body_of style units.now ++ signature)) symbols.old }
{
    let width = style::head_width(style);
    let value = style::head_value(style);
    let head = quintets::put_code(style, 0, width, value, units, symbols, 0);
    let body = put_units(style, units, symbols, head);
    signature::put_signature(symbols, body)
}

// Stores a plain text, and answers the number of its units.
fn put_plain(units: &[u16], symbols: &mut [u8]) -> usize
    requires units_value { is_all_ldh units.now ≡ true }
    requires units_in_bounds { length units.now ≤ length symbols.old }
    ensures value { result ≡ length units.now }
    ensures symbols_after { symbols.new ≡ units.now ++ drop (length units.now) symbols.old }
{
    for (i, &unit) in units.iter().enumerate() {
        symbols[i] = unit as u8;
    }
    units.len()
}

// Whether a text goes out as it is.
fn is_plain(units: &[u16]) -> bool
    ensures { result ≡ is_plain units.now }
{
    if brace_format::signature::is_signed(units) {
        return false;
    }
    ascii::units_are_host_label(units)
}

// Writes the symbols of a text of at most 63 units, or refuses it as too long.
pub(crate) fn put_short(units: &[u16], symbols: &mut [u8]) -> Result<ByteCount, Refusal>
    requires { (length units.now ≤ 63) × (63 ≤ length symbols.old) }
    ensures result_value { bytes_outcome result ≡ refused_if (ltb 63 (length (symbols_of units.now))) 3 0 (done (length (symbols_of units.now))) }
    ensures symbols_after { symbols.new ≡ buffer_after (refused_if (ltb 63 (length (symbols_of units.now))) 3 0 (done (length (symbols_of units.now)))) (symbols_of units.now) symbols.old }
{
    if is_plain(units) {
        let count = put_plain(units, symbols);
        return Ok(ByteCount(count));
    }
    let style = brace_choice::style_of(units);
    if 63 < signed_length(style, units) {
        return Err(ErrorCode::TooLong.at(0));
    }
    let count = put_signed(style, units, symbols);
    Ok(ByteCount(count))
}
