// The bits of a code as quintets, with up to four bits of the code that follows.
ghost use Rattle.std.specs.Prelude.{◌≡◌, [], ◌+◌, ◌≤◌, ◌<◌, length};
ghost use Rattle.basis.specs.Internal.{Stored};
ghost use Rattle.copying.specs.Symbols.{quintets};
ghost use Rattle.brace_symbols.specs.Encoding.{ahead, quintet_count, spare_count, code_quintets};

use brace_format::style;
use brace_format::style::Style;

// The first k bits of the codes of the units.
fn bits_ahead(style: Style, k: u32, units: &[u16]) -> u32
    requires { k ≤ 4 }
    ensures value { result ≡ ahead style k units.now }
    ensures upper_bound { result < 262144 }
{
    for &unit in units {
        if !ascii::is_ldh(unit as u32) {
            let left = style::width(style, unit) - k;
            return style::code(style, unit) >> left;
        }
    }
    0
}

// Stores the last n quintets of a value at an index, and answers the index after them.
fn put_quintets(n: u32, value: u32, symbols: &mut [u8], at: usize) -> usize
    requires n_bound { n ≤ 4 }
    requires n_in_bounds { at + n ≤ length symbols.old }
    ensures { Stored symbols.old at (quintets n value []) symbols.new result }
{
    let mut to = at;
    for left in (0..n).rev() {
        symbols[to] = ((value >> (5 * left)) % 32) as u8;
        to += 1;
    }
    to
}

// How many quintets more a code of so many bits takes, the first k of which are out.
// Kept as clauses: a struct of k and the width would be made anew at each of the seven calls, and each would owe the same facts as now.
#[tactic(auto, unfolding(crate::specs::Encoding::quintet_count))]
pub(crate) fn quintet_count(k: u32, width: u32) -> u32
    requires { (k ≤ width) × (width ≤ 18) }
    ensures value { result ≡ quintet_count k width }
    ensures upper_bound { result ≤ 4 }
{
    (width - k + 4) / 5
}

// How many bits of what follows the last of them holds.
#[tactic(auto, unfolding(crate::specs::Encoding::spare_count, crate::specs::Encoding::quintet_count))]
pub(crate) fn spare_count(k: u32, width: u32) -> u32
    requires { (k ≤ width) × (width ≤ 18) }
    ensures value { result ≡ spare_count k width }
    ensures upper_bound { result ≤ 4 }
{
    k + 5 * quintet_count(k, width) - width
}

// Stores the quintets of a code, the first k bits of which are out, before the units that follow, and answers the index after them.
pub(crate) fn put_code(
    style: Style,
    k: u32,
    width: u32,
    code: u32,
    next: &[u16],
    symbols: &mut [u8],
    at: usize,
) -> usize
    requires k_bound { (k ≤ 4) × (k ≤ width) × (width ≤ 18) × (code < 262144) }
    requires width_in_bounds { at + quintet_count k width ≤ length symbols.old }
    ensures { Stored symbols.old at (code_quintets style k width code next.now []) symbols.new result }
{
    let spare = spare_count(k, width);
    let value = code * (1 << spare) + bits_ahead(style, spare, next);
    put_quintets(quintet_count(k, width), value, symbols, at)
}
