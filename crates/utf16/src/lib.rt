// The conversions between points, UTF-16 units and bytes, with a type for each count.
#![tactic(auto)]

pub mod bytes;
mod units;

ghost use Rattle.std.specs.Prelude.{◌≡◌, length, take};
ghost use Rattle.basis.specs.Outcome.{buffer_after};
ghost use Rattle.utf16.specs.Units.{to_units, to_points};
ghost use Rattle.utf16.specs.Answer.{units_outcome, points_outcome, to_units_outcome, to_points_outcome};

use basis::{ErrorCode, Refusal};
use surrogates::points;

// How many points: what the screen counts.
#[derive(Clone, Copy)]
pub struct PointCount(pub usize);

// How many units: what the radio counts.
#[derive(Clone, Copy)]
pub struct UnitCount(pub usize);

// Writes the units of the first `count` points.
// Kept: a row and its count are two parameters here and in the three like it, since their public contracts speak of both.
pub fn to_units(points: &[u32], count: PointCount, units: &mut [u16]) -> Result<UnitCount, Refusal>
    ensures result_value { units_outcome result ≡ to_units_outcome points.now count.0 (length units.old) }
    ensures units_after { units.new ≡ buffer_after (to_units_outcome points.now count.0 (length units.old)) (to_units (take count.0 points.now)) units.old }
{
    let n = count.0;
    if points.len() < n {
        return Err(ErrorCode::Capacity.at(0));
    }
    let row = &points[..n];
    let bad = points::first_not_point(row);
    let needed = 2 * n;
    if units.len() < needed {
        return Err(ErrorCode::Capacity.at(0));
    }
    if bad < n {
        return Err(ErrorCode::NotAPoint.at(bad));
    }
    let written = units::put_units(row, units);
    Ok(UnitCount(written))
}

// Writes the points of the first `count` units.
pub fn to_points(units: &[u16], count: UnitCount, points: &mut [u32]) -> Result<PointCount, Refusal>
    ensures result_value { points_outcome result ≡ to_points_outcome units.now count.0 (length points.old) }
    ensures points_after { points.new ≡ buffer_after (to_points_outcome units.now count.0 (length points.old)) (to_points (take count.0 units.now)) points.old }
{
    let n = count.0;
    if units.len() < n {
        return Err(ErrorCode::Capacity.at(0));
    }
    let row = &units[..n];
    let unpaired = surrogates::units::first_unpaired(row);
    if points.len() < n {
        return Err(ErrorCode::Capacity.at(0));
    }
    if unpaired < n {
        return Err(ErrorCode::UnpairedSurrogate.at(unpaired));
    }
    let written = units::put_points(&row, points);
    Ok(PointCount(written))
}
