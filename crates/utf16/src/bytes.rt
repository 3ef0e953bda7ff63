// Units as bytes, two for each, the high one first; and texts as bytes, with no units stored between.
ghost use Rattle.std.specs.Prelude.{◌≡◌, true, [], ◌∷◌, ◌++◌, ◌+◌, ◌*◌, ◌/◌, ◌≤◌, length, take, drop};
ghost use Rattle.basis.specs.Internal.{Stored};
ghost use Rattle.basis.specs.Outcome.{bytes_outcome, buffer_after};
ghost use Rattle.utf16.specs.Points.{is_point, is_text};
ghost use Rattle.utf16.specs.Units.{units_of};
ghost use Rattle.utf16.specs.Bytes.{units_of_bytes, bytes_of_units, points_of, bytes_of};
ghost use Rattle.utf16.specs.Answer.{units_outcome, points_outcome, bytes_to_units_outcome, units_to_bytes_outcome, bytes_to_points_outcome, points_to_bytes_outcome};

use crate::{PointCount, UnitCount, units};
use basis::{ByteCount, ErrorCode, Refusal};
use surrogates::points;
use surrogates::units::{Units, first_unpaired_of};

// The unit of two bytes.
fn unit_of(high: u8, low: u8) -> u16
    ensures { result ≡ high * 256 + low }
{
    u16::from_be_bytes([high, low])
}

// A row of bytes as units, two bytes for each; a last byte that has no second makes none.
#[derive(Clone, Copy)]
struct BytePairs<'a>(&'a [u8]);

impl Units for BytePairs<'_> {
    ghost units = { λ row. units_of_bytes row.0.now };

    fn count(&self) -> usize {
        self.0.len() / 2
    }

    fn unit_at(&self, i: usize) -> u16 {
        if i < self.0.len() / 2 {
            unit_of(self.0[2 * i], self.0[2 * i + 1])
        } else {
            0
        }
    }
}

// Stores the units of a row of bytes, and answers how many.
fn put_units(bytes: &[u8], units: &mut [u16]) -> usize
    requires { length bytes.now / 2 ≤ length units.old }
    ensures value { result ≡ length (units_of_bytes bytes.now) }
    ensures units_after { units.new ≡ units_of_bytes bytes.now ++ drop (length (units_of_bytes bytes.now)) units.old }
{
    let row = BytePairs(bytes);
    let n = bytes.len() / 2;
    for i in 0..n {
        units[i] = row.unit_at(i);
    }
    n
}

// Writes the units of a row of bytes.
pub fn bytes_to_units(bytes: &[u8], units: &mut [u16]) -> Result<UnitCount, Refusal>
    ensures result_value { units_outcome result ≡ bytes_to_units_outcome bytes.now (length units.old) }
    ensures units_after { units.new ≡ buffer_after (bytes_to_units_outcome bytes.now (length units.old)) (units_of_bytes bytes.now) units.old }
{
    if units.len() < bytes.len() / 2 {
        return Err(ErrorCode::Capacity.at(0));
    }
    if bytes.len() % 2 == 1 {
        return Err(ErrorCode::OddByteCount.at(0));
    }
    Ok(UnitCount(put_units(bytes, units)))
}

// Writes the points of a row of bytes.
pub fn bytes_to_points(bytes: &[u8], points: &mut [u32]) -> Result<PointCount, Refusal>
    ensures result_value { points_outcome result ≡ bytes_to_points_outcome bytes.now (length points.old) }
    ensures points_after { points.new ≡ buffer_after (bytes_to_points_outcome bytes.now (length points.old)) (points_of bytes.now) points.old }
{
    let pairs = bytes.len() / 2;
    let spare = bytes.len() % 2;
    if spare == 1 {
        return Err(ErrorCode::OddByteCount.at(0));
    }
    if points.len() < pairs {
        return Err(ErrorCode::Capacity.at(0));
    }
    let row = BytePairs(bytes);
    let unpaired = first_unpaired_of(&row);
    if unpaired < pairs {
        return Err(ErrorCode::UnpairedSurrogate.at(unpaired));
    }
    Ok(PointCount(units::put_points(&row, points)))
}

// Stores a unit as two bytes, from an index on.
fn put_unit(unit: u16, bytes: &mut [u8], at: usize)
    requires { at + 2 ≤ length bytes.old }
    ensures { Stored bytes.old at (bytes_of_units (unit ∷ [])) bytes.new (at + 2) }
{
    bytes[at..at + 2].copy_from_slice(&unit.to_be_bytes());
}

// Stores the bytes of a row of units, and answers how many.
fn put_bytes(units: &[u16], bytes: &mut [u8]) -> usize
    requires { 2 * length units.now ≤ length bytes.old }
    ensures value { result ≡ length (bytes_of_units units.now) }
    ensures bytes_after { bytes.new ≡ bytes_of_units units.now ++ drop (length (bytes_of_units units.now)) bytes.old }
{
    let mut at = 0;
    for &unit in units {
        put_unit(unit, bytes, at);
        at += 2;
    }
    at
}

// Writes the bytes of the first `count` units.
pub fn units_to_bytes(
    units: &[u16],
    count: UnitCount,
    bytes: &mut [u8],
) -> Result<ByteCount, Refusal>
    ensures result_value { bytes_outcome result ≡ units_to_bytes_outcome units.now count.0 (length bytes.old) }
    ensures bytes_after { bytes.new ≡ buffer_after (units_to_bytes_outcome units.now count.0 (length bytes.old)) (bytes_of_units (take count.0 units.now)) bytes.old }
{
    let n = count.0;
    if units.len() < n {
        return Err(ErrorCode::Capacity.at(0));
    }
    if bytes.len() < 2 * n {
        return Err(ErrorCode::Capacity.at(0));
    }
    let written = put_bytes(&units[..n], bytes);
    Ok(ByteCount(written))
}

// Stores the bytes of a point from an index on, and answers the index after them.
fn put_point(point: u32, bytes: &mut [u8], at: usize) -> usize
    requires at_in_bounds { at + 4 ≤ length bytes.old }
    requires point_value { is_point point ≡ true }
    ensures { Stored bytes.old at (bytes_of_units (units_of point [])) bytes.new result }
{
    if point < 0x10000 {
        put_unit(point as u16, bytes, at);
        return at + 2;
    }
    put_unit(units::high_of(point), bytes, at);
    put_unit(units::low_of(point), bytes, at + 2);
    at + 4
}

// Stores the bytes of a text, and answers how many.
fn put_text(points: &[u32], bytes: &mut [u8]) -> usize
    requires points_in_bounds { 4 * length points.now ≤ length bytes.old }
    requires points_value { is_text points.now ≡ true }
    ensures value { result ≡ length (bytes_of points.now) }
    ensures bytes_after { bytes.new ≡ bytes_of points.now ++ drop (length (bytes_of points.now)) bytes.old }
{
    let mut at = 0;
    for &point in points {
        at = put_point(point, bytes, at);
    }
    at
}

// Writes the bytes of the first `count` points.
pub fn points_to_bytes(
    points: &[u32],
    count: PointCount,
    bytes: &mut [u8],
) -> Result<ByteCount, Refusal>
    ensures result_value { bytes_outcome result ≡ points_to_bytes_outcome points.now count.0 (length bytes.old) }
    ensures bytes_after { bytes.new ≡ buffer_after (points_to_bytes_outcome points.now count.0 (length bytes.old)) (bytes_of (take count.0 points.now)) bytes.old }
{
    let n = count.0;
    if points.len() < n {
        return Err(ErrorCode::Capacity.at(0));
    }
    let row = &points[..n];
    let bad = points::first_not_point(row);
    let needed = 4 * n;
    if bytes.len() < needed {
        return Err(ErrorCode::Capacity.at(0));
    }
    if bad < n {
        return Err(ErrorCode::NotAPoint.at(bad));
    }
    let stored = put_text(row, bytes);
    Ok(ByteCount(stored))
}
