// Quintets to octets: the rules of Base32's form, and the octets of a row of characters.
ghost use Rattle.std.specs.Prelude.{◌≡◌, ◌++◌, ◌*◌, ◌≤◌, ◌<◌, ◌^◌, length, drop};
ghost use Rattle.basis.specs.Rows.{at};
ghost use Rattle.alphabet.specs.Alphabet.{lace, values_of};
ghost use Rattle.base32.specs.Bits.{regroup};
ghost use Rattle.base32.specs.Form.{octet_count, length_lawful};
ghost use Rattle.base32.specs.Base32.{to_octets};
ghost use Rattle.base32.specs.Answer.{first_outside};

// How many whole octets so many quintets hold.
pub(crate) fn octet_count(quintets: usize) -> usize
    ensures { result ≡ octet_count quintets }
{
    quintets / 8 * 5 + quintets % 8 * 5 / 8
}

// Whether the length leaves 0, 2, 4, 5 or 7 on division by 8, and so not 1, 3 or 6.
pub(crate) fn length_lawful(n: usize) -> bool
    ensures { result ≡ length_lawful n }
{
    let rest = n % 8;
    if rest == 1 {
        return false;
    }
    if rest == 3 {
        return false;
    }
    rest != 6
}

// The value of the character at an index, 0 past the end.
fn value_at(characters: &[u8], i: usize) -> usize
    ensures value { result ≡ at (values_of lace characters.now) i }
    ensures upper_bound { result ≤ 32 }
{
    if i < characters.len() {
        alphabet::lace_look_up(characters[i]).value as usize
    } else {
        0
    }
}

// Octet i of the characters' values: eight bits out of three quintets, zeros past the end.
// Kept beside `quintet`: one function for both would take both widths, the window's size and a reader, for three lines each.
pub(crate) fn octet(characters: &[u8], i: usize) -> u8
    requires i_bound { i < 2 ^ 63 }
    requires characters_value { first_outside lace characters.now ≡ length characters.now }
    ensures { result ≡ regroup 5 8 (at (values_of lace characters.now)) i }
{
    let first = i / 5 * 8 + i % 5 * 8 / 5;
    let x = value_at(characters, first);
    let y = value_at(characters, first + 1);
    let z = value_at(characters, first + 2);
    (((x * 1024 + y * 32 + z) >> (7 - i % 5 * 8 % 5)) % 256) as u8
}

// Writes the n octets of the characters.
// Kept beside `put_characters`: one function over `impl Fn(usize) -> u8` would have this loop's body as its clause, and no less to write.
pub(crate) fn put_octets(characters: &[u8], n: usize, octets: &mut [u8])
    requires n_value { n ≡ octet_count (length characters.now) }
    requires n_in_bounds { n ≤ length octets.old }
    requires characters_value { first_outside lace characters.now ≡ length characters.now }
    ensures { octets.new ≡ to_octets (values_of lace characters.now) ++ drop n octets.old }
{
    for (i, slot) in octets[..n].iter_mut().enumerate() {
        *slot = octet(characters, i);
    }
}
