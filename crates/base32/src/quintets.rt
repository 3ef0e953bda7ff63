// Octets to quintets, and the Base32 characters of a row of octets.
ghost use Rattle.std.specs.Prelude.{◌≡◌, ◌++◌, ◌*◌, ◌≤◌, ◌<◌, ◌^◌, length, drop};
ghost use Rattle.basis.specs.Rows.{at};
ghost use Rattle.alphabet.specs.Alphabet.{lace};
ghost use Rattle.base32.specs.Bits.{regroup};
ghost use Rattle.base32.specs.Base32.{quintet_count, characters_of};

// How many quintets hold the bits of so many octets.
pub(crate) fn quintet_count(octets: usize) -> usize
    requires { octets < 2 ^ 63 }
    ensures { result ≡ quintet_count octets }
{
    octets / 5 * 8 + (octets % 5 * 8 + 4) / 5
}

// The octet at an index, 0 past the end.
fn octet_at(octets: &[u8], i: usize) -> usize
    ensures value { result ≡ at octets.now i }
    ensures upper_bound { result < 256 }
{
    usize::from(octets.get(i).copied().unwrap_or(0))
}

// Quintet i of the octets: five bits out of two octets.
fn quintet(octets: &[u8], i: usize) -> u8
    ensures { result ≡ regroup 8 5 (at octets.now) i }
{
    let first = i / 8 * 5 + i % 8 * 5 / 8;
    let x = octet_at(octets, first);
    let y = octet_at(octets, first + 1);
    (((x * 256 + y) >> (11 - i % 8 * 5 % 8)) % 32) as u8
}

// Writes the n characters of the octets.
pub(crate) fn put_characters(octets: &[u8], n: usize, characters: &mut [u8])
    requires n_value { n ≡ quintet_count (length octets.now) }
    requires n_in_bounds { n ≤ length characters.old }
    ensures { characters.new ≡ characters_of lace octets.now ++ drop n characters.old }
{
    for (i, slot) in characters[..n].iter_mut().enumerate() {
        *slot = alphabet::lace_character(quintet(octets, i));
    }
}
