// What writing and reading LACE share: the prefix lq--, and how many runs units have.
#![tactic(auto)]

ghost use Rattle.std.specs.Prelude.{◌≡◌, ◌≤◌, length};
ghost use Rattle.ascii.specs.Prefix.{has_prefix};
ghost use Rattle.lace_format.specs.Prefix.{prefix};
ghost use Rattle.lace_format.specs.Octets.{change_between, run_count};

// Stored first in a label, and known in either case.
pub const PREFIX: [u8; 4] = *b"lq--";

// Whether the label begins with the prefix, case ignored.
pub fn has_prefix(label: &[u8]) -> bool
    ensures { result ≡ has_prefix prefix label.now }
{
    ascii::has_prefix(label, &PREFIX)
}

// 1 where two units differ in high octet, else 0.
#[tactic(auto, using(crate::proofs::RowTests::change_is))]
fn change(before: u16, unit: u16) -> usize
    ensures value { result ≡ change_between before unit }
    ensures upper_bound { result ≤ 1 }
{
    usize::from(before / 256 != unit / 256)
}

// How many longest runs of equal high octet the units have.
pub fn run_count(units: &[u16]) -> usize
    ensures value { result ≡ run_count units.now }
    ensures upper_bound { result ≤ length units.now }
{
    if units.is_empty() {
        return 0;
    }
    let mut r = 1;
    for pair in units.windows(2) {
        r += change(pair[0], pair[1]);
    }
    r
}
