// Numbers as digits to a base.
ghost use Rattle.std.specs.Prelude.{◌≡◌, ◌+◌, ◌≤◌, ◌<◌, length};
ghost use Rattle.basis.specs.Internal.{Stored};
ghost use Rattle.report.specs.Digits.{digit_character, digit_count, fixed_digits, digits_of};

// The character of a digit.
fn digit_character(digit: usize) -> u8
    requires { digit < 16 }
    ensures { result ≡ digit_character digit }
{
    if digit < 10 {
        return 48 + digit as u8;
    }
    55 + digit as u8
}

// How many digits a number has, without leading zeros; zero has none.
fn digit_count(number: usize, base: usize) -> usize
    requires { 2 ≤ base }
    ensures { result ≡ digit_count base number number }
{
    let mut n = 0;
    let mut left = number;
    // Kept as a `while`: it divides until nothing is left, and no index is counted.
    while 0 < left {
        n += 1;
        left = left / base;
    }
    n
}

// How many digits a number is written with, at least so many.
pub(crate) fn digits_length(number: usize, base: usize, least: usize) -> usize
    requires le_base { 2 ≤ base }
    requires least_bound { least ≤ 64 }
    ensures value { result ≡ length (digits_of base least number) }
    ensures upper_bound { result ≤ 64 }
{
    let n = digit_count(number, base);
    n.max(least)
}

// Stores so many digits of a number at an index, the last one first, and answers the index after them.
pub(crate) fn put_fixed_digits(
    number: usize,
    base: usize,
    count: usize,
    out: &mut [u8],
    at: usize,
) -> usize
    requires le_base { 2 ≤ base }
    requires base_bound { base ≤ 16 }
    requires count_in_bounds { at + count ≤ length out.old }
    ensures { Stored out.old at (fixed_digits base count number) out.new result }
{
    let end = at + count;
    let mut left = number;
    for j in (at..end).rev() {
        out[j] = digit_character(left % base);
        left = left / base;
    }
    end
}

// Stores the digits of a number at an index, at least so many, and answers the index after them.
pub(crate) fn put_digits(
    number: usize,
    base: usize,
    least: usize,
    out: &mut [u8],
    at: usize,
) -> usize
    requires le_base { 2 ≤ base }
    requires base_bound { base ≤ 16 }
    requires least_bound { least ≤ 64 }
    requires number_in_bounds { at + length (digits_of base least number) ≤ length out.old }
    ensures { Stored out.old at (digits_of base least number) out.new result }
{
    let count = digits_length(number, base, least);
    put_fixed_digits(number, base, count, out, at)
}
