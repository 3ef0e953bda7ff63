// Units as octets, and octets as a label.
ghost use Rattle.std.specs.Prelude.{None, ◌≡◌, ◌∷◌, ◌++◌, ◌+◌, ◌*◌, ◌/◌, ◌≤◌, ◌<◌, length, drop};
ghost use Rattle.basis.specs.Internal.{Stored};
ghost use Rattle.basis.specs.Outcome.{bytes_outcome, buffer_after};
ghost use Rattle.alphabet.specs.Alphabet.{lace};
ghost use Rattle.base32.specs.Base32.{quintet_count, characters_of};
ghost use Rattle.utf16.specs.Bytes.{bytes_of_units};
ghost use Rattle.lace_format.specs.Prefix.{prefix};
ghost use Rattle.lace_encoding.specs.Encoding.{octets_of};
ghost use Rattle.lace_encoding.specs.Internal.{same_high, run_step, run_steps, units_outcome};

use crate::prefix;
use basis::{ByteCount, ErrorCode, Refusal};
use utf16::UnitCount;

// More units, or points, make a label over 63 bytes.
pub(crate) const MOST_UNITS: usize = 34;

// How many units at the front have this high octet.
fn run_length(units: &[u16], high: u16) -> usize
    ensures value { result ≡ same_high high units.now }
    ensures upper_bound { result ≤ length units.now }
{
    units
        .iter()
        .position(|&unit| unit / 256 != high)
        .unwrap_or(units.len())
}

// Stores the octets that the unit at an index adds to runs, after a unit of the high octet before, if there was one: its low
// octet, and at the start of a run the count and the high octet before it. Answers the index after them.
// At most 34 units, so that a count fits an octet. Kept as a clause here and in the two below: a struct would be made once and have one method for each.
fn put_run_unit(units: &[u16], i: usize, before: Option<u16>, octets: &mut [u8], at: usize) -> usize
    requires { (i < length units.now) × (length units.now ≤ 34) × (at + 3 ≤ length octets.old) }
    ensures { Stored octets.old at (run_step before (drop i units.now)) octets.new result }
{
    let unit = units[i];
    let high = unit / 256;
    if before == Some(high) {
        octets[at] = (unit % 256) as u8;
        return at + 1;
    }
    octets[at] = run_length(&units[i..], high) as u8;
    octets[at + 1] = high as u8;
    octets[at + 2] = (unit % 256) as u8;
    at + 3
}

// Writes the octets of the units' runs, and answers their count.
fn put_runs(units: &[u16], octets: &mut [u8]) -> usize
    requires { (length units.now ≤ 34) × (3 * length units.now ≤ length octets.old) }
    ensures value { result ≡ length (run_steps None units.now) }
    ensures octets_after { octets.new ≡ run_steps None units.now ++ drop (length (run_steps None units.now)) octets.old }
{
    let mut before = None;
    let mut at = 0;
    for (i, &unit) in units.iter().enumerate() {
        at = put_run_unit(units, i, before, octets, at);
        before = Some(unit / 256);
    }
    at
}

// Stores FF, passes the rest to the writer of all units, high octet first, and answers the count of octets.
fn put_all(units: &[u16], octets: &mut [u8]) -> usize
    requires { 2 * length units.now + 1 ≤ length octets.old }
    ensures value { result ≡ 2 * length units.now + 1 }
    ensures octets_after { octets.new ≡ (0xff ∷ bytes_of_units units.now) ++ drop (2 * length units.now + 1) octets.old }
{
    octets[0] = 255;
    let answer = utf16::bytes::units_to_bytes(units, UnitCount(units.len()), &mut octets[1..]);
    1 + basis::bytes_written(answer)
}

// Writes the octets of at most 34 units, and answers their count.
fn put_octets(units: &[u16], octets: &mut [u8]) -> usize
    requires { (length units.now ≤ 34) × (102 ≤ length octets.old) }
    ensures value { result ≡ length (octets_of units.now) }
    ensures octets_after { octets.new ≡ octets_of units.now ++ drop (length (octets_of units.now)) octets.old }
{
    let n = units.len();
    if 2 * lace_format::run_count(units) + n <= 2 * n {
        return put_runs(units, octets);
    }
    put_all(units, octets)
}

// Stores the prefix, passes the rest of the label to the Base32 writer, and answers how many bytes the label has.
fn put_label(octets: &[u8], label: &mut [u8]) -> ByteCount
    requires { 4 + quintet_count (length octets.now) ≤ length label.old }
    ensures value { result.0 ≡ 4 + quintet_count (length octets.now) }
    ensures label_after { label.new ≡ (prefix ++ characters_of lace octets.now) ++ drop (4 + quintet_count (length octets.now)) label.old }
{
    prefix::put_prefix(label);
    let answer = base32::encode(octets, &mut label[4..]);
    let count = 4 + basis::bytes_written(answer);
    ByteCount(count)
}

// Writes the label of units that may be written, or refuses a label over 63 bytes.
pub(crate) fn encode_units(units: &[u16], label: &mut [u8]) -> Result<ByteCount, Refusal>
    requires { (1 ≤ length units.now) × (63 ≤ length label.old) }
    ensures result_value { bytes_outcome result ≡ units_outcome units.now }
    ensures label_after { label.new ≡ buffer_after (units_outcome units.now) (prefix ++ characters_of lace (octets_of units.now)) label.old }
{
    if MOST_UNITS < units.len() {
        return Err(ErrorCode::TooLong.at(0));
    }
    // Fixed memory, so a buffer for the most octets there can be, and their count.
    let mut octets = [0u8; 102];
    let n = put_octets(units, &mut octets);
    if 36 < n {
        return Err(ErrorCode::TooLong.at(0));
    }
    Ok(put_label(&octets[..n], label))
}
