// Octets as units, read one by one, and units as a text.
ghost use Rattle.std.specs.Prelude.{None, ◌≡◌, [], ◌++◌, ◌+◌, ◌<◌, ◌≤◌, length, drop};
ghost use Rattle.basis.specs.Internal.{Stored};
ghost use Rattle.basis.specs.Outcome.{refused, number_of, buffer_after};
ghost use Rattle.utf16.specs.Units.{to_points};
ghost use Rattle.utf16.specs.Answer.{points_outcome};
ghost use Rattle.utf16.specs.Bytes.{units_of_bytes};
ghost use Rattle.lace_decoding.specs.Decoding.{may_stand, place_after, may_end, unit_at, are_runs, units_from, units_of, stand_for_units};
ghost use Rattle.lace_decoding.specs.Internal.{octets_outcome, error_after_prefix};

use basis::{ErrorCode, Refusal};
use utf16::{PointCount, UnitCount};

// A place among runs: before a count, after a run of this high octet, if there was one; before the high octet of a run of so
// many; before a low octet, with so many to come under this high octet.
#[derive(Clone, Copy)]
pub enum Place {
    Count(Option<u8>),
    High(Option<u8>, u8),
    Low(u8, u8),
}

// Whether the octet may be there.
fn may_stand(place: Place, octet: u8) -> bool
    ensures { result ≡ may_stand place octet }
{
    match place {
        Place::Count(_) => octet != 0,
        Place::High(previous, _) => previous != Some(octet),
        Place::Low(_, _) => true,
    }
}

// The place after the octet.
fn place_after(place: Place, octet: u8) -> Place
    ensures { result ≡ place_after place octet }
{
    match place {
        Place::Count(previous) => Place::High(previous, octet),
        Place::High(_, count) => Place::Low(count, octet),
        Place::Low(left, high) => {
            if left < 2 {
                return Place::Count(Some(high));
            }
            Place::Low(left - 1, high)
        }
    }
}

// Whether runs may end there.
fn may_end(place: Place) -> bool
    ensures { result ≡ may_end place }
{
    match place {
        Place::Count(previous) => previous.is_some(),
        Place::High(_, _) => false,
        Place::Low(_, _) => false,
    }
}

// Whether the octets are runs.
fn are_runs(octets: &[u8]) -> bool
    ensures { result ≡ are_runs (Place.Count None) octets.now }
{
    let mut place = Place::Count(None);
    for &octet in octets {
        if !may_stand(place, octet) {
            return false;
        }
        place = place_after(place, octet);
    }
    may_end(place)
}

// Stores the unit that the octet completes, if it does, at an index, and answers the index after it.
fn put_unit(place: Place, octet: u8, units: &mut [u16], at: usize) -> usize
    requires { at < length units.old }
    ensures { Stored units.old at (unit_at place octet []) units.new result }
{
    match place {
        Place::Count(_) => at,
        Place::High(_, _) => at,
        Place::Low(_, high) => {
            units[at] = u16::from_be_bytes([high, octet]);
            at + 1
        }
    }
}

// Writes the units of runs, and answers their count.
fn put_run_units(octets: &[u8], units: &mut [u16]) -> usize
    requires { length octets.now ≤ length units.old }
    ensures value { result ≡ length (units_from (Place.Count None) octets.now) }
    ensures units_after { units.new ≡ units_from (Place.Count None) octets.now ++ drop (length (units_from (Place.Count None) octets.now)) units.old }
{
    let mut place = Place::Count(None);
    let mut at = 0;
    for &octet in octets {
        at = put_unit(place, octet, units, at);
        place = place_after(place, octet);
    }
    at
}

// Writes the units of octets that are all units, high octet first, and answers their count; the last
// of an odd number of octets makes no unit.
fn put_unit_pairs(octets: &[u8], units: &mut [u16]) -> usize
    requires { length octets.now ≤ length units.old }
    ensures value { result ≡ length (units_of_bytes octets.now) }
    ensures units_after { units.new ≡ units_of_bytes octets.now ++ drop (length (units_of_bytes octets.now)) units.old }
{
    let even = octets.len() - octets.len() % 2;
    utf16::bytes::bytes_to_units(&octets[..even], units).map_or(0, |count| count.0)
}

// Writes the units of octets, and answers their count.
fn put_units(octets: &[u8], units: &mut [u16]) -> usize
    requires { length octets.now ≤ length units.old }
    ensures value { result ≡ length (units_of octets.now) }
    ensures units_after { units.new ≡ units_of octets.now ++ drop (length (units_of octets.now)) units.old }
{
    if octets.len() == 0 {
        return 0;
    }
    if octets[0] == 255 {
        return put_unit_pairs(&octets[1..], units);
    }
    put_run_units(octets, units)
}

// Whether the octets stand for units, which are these.
fn stand_for_units(octets: &[u8], units: &[u16]) -> bool
    requires { (units.now ≡ units_of octets.now) × (length octets.now ≤ 36) }
    ensures { result ≡ stand_for_units octets.now }
{
    let twice = 2 * lace_format::run_count(units);
    if octets.len() == 0 {
        return false;
    }
    if octets[0] == 255 {
        if octets.len() % 2 != 1 {
            return false;
        }
        return units.len() < twice;
    }
    if !are_runs(octets) {
        return false;
    }
    twice <= units.len()
}

// The refusal of the Base32 reader, of what follows the prefix, as that of the label: a byte outside the alphabet is at its index in the label.
pub(crate) fn after_prefix(refusal: Refusal) -> Refusal
    requires { refusal.position < 64 }
    ensures { refused (number_of result.code) result.position ≡ error_after_prefix (number_of refusal.code) refusal.position }
{
    match refusal.code {
        ErrorCode::OutsideAlphabet => ErrorCode::OutsideAlphabet.at(4 + refusal.position),
        _ => ErrorCode::NotWellFormed.at(0),
    }
}

// Reads the text of at most 36 octets.
pub(crate) fn decode_octets(octets: &[u8], text: &mut [u32]) -> Result<PointCount, Refusal>
    requires { (length octets.now ≤ 36) × (63 ≤ length text.old) }
    ensures result_value { points_outcome result ≡ octets_outcome octets.now }
    ensures text_after { text.new ≡ buffer_after (octets_outcome octets.now) (to_points (units_of octets.now)) text.old }
{
    // Fixed memory, so a buffer for the most units there can be, and their count.
    let mut units = [0u16; 36];
    let n = put_units(octets, &mut units);
    let row = &units[..n];
    let meant = stand_for_units(octets, row);
    let unpaired = surrogates::units::first_unpaired(row);
    let host_label = ascii::units_are_host_label(row);
    if !meant {
        return Err(ErrorCode::NotWellFormed.at(0));
    }
    if unpaired < n {
        return Err(ErrorCode::NotWellFormed.at(0));
    }
    if host_label {
        return Err(ErrorCode::HostLabel.at(0));
    }
    utf16::to_points(&units, UnitCount(n), text)
}
