// UTF-16 units: the two conversions of a row that has been judged.
ghost use Rattle.std.specs.Prelude.{◌≡◌, [], ◌++◌, ◌+◌, ◌*◌, ◌≤◌, true, length, drop};
ghost use Rattle.basis.specs.Internal.{Stored};
ghost use Rattle.utf16.specs.Points.{is_point, is_text};
ghost use Rattle.utf16.specs.Units.{high_of, low_of, units_of, to_units, point_of, to_points};

use surrogates::units::{self, Units};

// The high surrogate of a point of 10000 hex or more.
pub(crate) fn high_of(point: u32) -> u16
    requires { (0x10000 ≤ point) × (point ≤ 0x10ffff) }
    ensures { result ≡ high_of point }
{
    (0xd800 + (point - 0x10000) / 1024) as u16
}

// The low surrogate of a point of 10000 hex or more.
pub(crate) fn low_of(point: u32) -> u16
    requires { 0x10000 ≤ point }
    ensures { result ≡ low_of point }
{
    (0xdc00 + (point - 0x10000) % 1024) as u16
}

// Stores the units of a point at an index, and answers the index after them.
// Kept by hand: `char::encode_utf16` takes a `char`, so the `u32` would first be made one, with an arm that never runs; and bytes need the halves.
// Kept: `units, at` are two parameters here and below: `Stored` speaks of a buffer and an index, so each contract would take a cursor struct apart.
fn put_point_units(point: u32, units: &mut [u16], at: usize) -> usize
    requires at_in_bounds { at + 2 ≤ length units.old }
    requires point_value { is_point point ≡ true }
    ensures { Stored units.old at (units_of point []) units.new result }
{
    if point < 0x10000 {
        units[at] = point as u16;
        return at + 1;
    }
    units[at] = high_of(point);
    units[at + 1] = low_of(point);
    at + 2
}

// Writes the units of a text, and answers their count.
pub(crate) fn put_units(points: &[u32], units: &mut [u16]) -> usize
    requires points_in_bounds { 2 * length points.now ≤ length units.old }
    requires points_value { is_text points.now ≡ true }
    ensures value { result ≡ length (to_units points.now) }
    ensures units_after { units.new ≡ to_units points.now ++ drop (length (to_units points.now)) units.old }
{
    let mut at = 0;
    for &point in points {
        at = put_point_units(point, units, at);
    }
    at
}

// Stores the point that a unit ends, if it ends one, at an index, and answers the index after it.
pub(crate) fn put_unit_point(before: u16, unit: u16, points: &mut [u32], at: usize) -> usize
    requires { at + 1 ≤ length points.old }
    ensures { Stored points.old at (point_of before unit []) points.new result }
{
    if units::is_high(unit) {
        return at;
    }
    if units::is_low(unit) {
        points[at] = 0x10000 + (before as u32) % 1024 * 1024 + (unit as u32) % 1024;
        return at + 1;
    }
    points[at] = unit as u32;
    at + 1
}

// Writes the points of a row of units, and answers their count.
pub(crate) fn put_points<R: Units>(row: &R, points: &mut [u32]) -> usize
    requires { length (R.units row.now) ≤ length points.old }
    ensures value { result ≡ length (to_points (R.units row.now)) }
    ensures points_after { points.new ≡ to_points (R.units row.now) ++ drop (length (to_points (R.units row.now))) points.old }
{
    let mut before = 0;
    let mut at = 0;
    for i in 0..row.count() {
        let unit = row.unit_at(i);
        at = put_unit_point(before, unit, points, at);
        before = unit;
    }
    at
}
