// Writing a text as a label.
ghost use Rattle.std.specs.Prelude.{◌≡◌, [], ◌++◌, map, ◌+◌, ◌≤◌, min, length, drop};
ghost use Rattle.basis.specs.Internal.{Stored};
ghost use Rattle.altdude.specs.Symbols.{byte_of};
ghost use Rattle.altdude.specs.Encoding.{group_of, item_of, remembered_after, label_of};

use crate::symbols;

// How many symbols the group of x has.
fn group_length(x: u32) -> usize
    ensures { result ≡ length (group_of x []) }
{
    let mut n = 1;
    let mut y = x / 16;
    // Kept as a `while`: it divides until nothing is left, and no index is counted.
    while 0 < y {
        n += 1;
        y /= 16;
    }
    n
}

// How many symbols the item of a point has.
fn item_length(remembered: u32, point: u32) -> usize
    ensures value { result ≡ length (item_of remembered point []) }
    ensures upper_bound { result ≤ 8 }
{
    if point == 45 {
        return 1;
    }
    group_length(point ^ remembered)
}

// The remembered number after a point.
fn remembered_after(remembered: u32, point: u32) -> u32
    ensures { result ≡ remembered_after remembered point }
{
    if point == 45 { remembered } else { point }
}

// How many bytes the label of a text has, or 64 where it has more than 63.
pub(crate) fn label_length(text: &[u32]) -> usize
    ensures { result ≡ min 64 (length (label_of text.now)) }
{
    let mut n = 0;
    let mut remembered = 96;
    for &point in text {
        n += item_length(remembered, point);
        if 63 < n {
            return 64;
        }
        remembered = remembered_after(remembered, point);
    }
    n
}

// Stores the group of x at an index, and answers the index after it.
// Kept: `label, at` are two parameters here and below: `Stored` speaks of a buffer and an index, so each contract would take a cursor struct apart.
fn put_group(x: u32, label: &mut [u8], at: usize) -> usize
    requires { at + length (group_of x []) ≤ length label.old }
    ensures { Stored label.old at (map byte_of (group_of x [])) label.new result }
{
    let end = at + group_length(x);
    let last = end - 1;
    label[last] = symbols::byte_of((x % 16) as u8);
    let mut y = x / 16;
    for j in (at..last).rev() {
        label[j] = symbols::byte_of((16 + y % 16) as u8);
        y /= 16;
    }
    end
}

// Stores the item of a point at an index, and answers the index after it.
fn put_item(remembered: u32, point: u32, label: &mut [u8], at: usize) -> usize
    requires { at + length (item_of remembered point []) ≤ length label.old }
    ensures { Stored label.old at (map byte_of (item_of remembered point [])) label.new result }
{
    if point == 45 {
        label[at] = 45;
        return at + 1;
    }
    put_group(point ^ remembered, label, at)
}

// Stores the label of a text, and answers its length.
pub(crate) fn put_label(text: &[u32], label: &mut [u8]) -> usize
    requires { length (label_of text.now) ≤ length label.old }
    ensures value { result ≡ length (label_of text.now) }
    ensures label_after { label.new ≡ label_of text.now ++ drop (length (label_of text.now)) label.old }
{
    let mut at = 0;
    let mut remembered = 96;
    for &point in text {
        at = put_item(remembered, point, label, at);
        remembered = remembered_after(remembered, point);
    }
    at
}
