// The format of short tables: the kinds of short entries, where a short entry ends, and an entry of
// one form stored as the entry of the other.
#![tactic(auto)]

ghost use Rattle.std.specs.Prelude.{◌≡◌, ◌+◌, ◌≤◌, length, drop};
ghost use Rattle.basis.specs.Rows.{at};
ghost use Rattle.scheme.specs.Naming.{number_of, own_number_names, kind_names, scheme_named};
ghost use Rattle.nametable_format.specs.Format.{label_capacity};
ghost use Rattle.nametable_short_format.specs.Format.{short_label_start, room_of, kind_for, first_entry, fitted, kind_named, long_of, short_of, filled_by};

use nametable_format::{ENTRY_LENGTH, LABEL_START, LENGTH_START, READER_START};
use scheme::Scheme;

// The kind of the header of a short table.
pub const SHORT_HEADER_KIND: u8 = 0x49;

// Where in a short entry the number of the scheme, the label's length and the label are.
pub const SCHEME_START: usize = 3;

pub const SHORT_LENGTH_START: usize = 4;

pub const SHORT_LABEL_START: usize = 5;

// The room of a short entry of this kind for its label; 0 if no short entry has this kind. A kind stays
// the format's byte, as no enum would hold the bytes for which `room_of` promises 0.
#[tactic(auto, unfolding(crate::specs::Format::room_of))]
pub fn room_of(kind: u8) -> usize
    ensures { (result ≡ room_of kind) × (result ≤ label_capacity) }
{
    if kind == 0x51 {
        return 16;
    }
    if kind == 0x52 {
        return 32;
    }
    if kind == 0x53 {
        return 63;
    }
    0
}

// The smallest kind that has room for so many bytes of label, 63 at most.
#[tactic(auto, unfolding(crate::specs::Format::kind_for))]
pub fn kind_for(bytes: u8) -> u8
    ensures { result ≡ kind_for bytes }
{
    if bytes <= 16 {
        return 0x51;
    }
    if bytes <= 32 {
        return 0x52;
    }
    0x53
}

// The byte at an index; 0 past the end.
fn byte_at(bytes: &[u8], i: usize) -> u8
    ensures { result ≡ at bytes.now i }
{
    bytes.get(i).copied().unwrap_or(0)
}

// Where the short entry that begins at a byte of the table ends: where its kind says, or with the
// table; past the table's end, where it begins.
pub fn end_of(table: &[u8], start: usize) -> usize
    ensures { result ≡ start + length (first_entry (drop start table.now)) }
{
    if table.len() < start {
        return start;
    }
    let length = SHORT_LABEL_START + room_of(byte_at(table, start));
    if table.len() - start < length {
        return table.len();
    }
    start + length
}

// The kind of a long entry of the scheme with this number; 0 if no scheme has it.
fn long_kind(number: u8) -> u8
    ensures { result ≡ kind_named (own_number_names number) }
{
    match scheme::of_own_number(number as u32) {
        Some(scheme) => scheme::kind(scheme),
        None => 0,
    }
}

// The number of the scheme of long entries of this kind; LACE's for a kind that names none, which no
// table that is moved has.
fn scheme_number(kind: u8) -> u8
    ensures { result ≡ number_of (scheme_named (kind_names kind)) }
{
    scheme::number(scheme::of_kind(kind).unwrap_or(Scheme::Lace)) as u8
}

// Fills the room with the bytes from an index on, and with zeros past their end.
fn put_fitted(bytes: &[u8], start: usize, room: &mut [u8])
    requires start_le_short_label_start { start ≤ short_label_start }
    requires room_len_bound { length room.old ≤ label_capacity }
    ensures { room.new ≡ fitted (length room.old) (drop start bytes.now) }
{
    for (i, slot) in room.iter_mut().enumerate() {
        *slot = byte_at(bytes, start + i);
    }
}

// Stores the long entry that a short one stands for, if the buffer is as long as it.
#[tactic(auto, using(crate::proofs::EntryLaws::other_size))]
pub fn put_long(short: &[u8], entry: &mut [u8])
    ensures { entry.new ≡ filled_by (long_of short.now) entry.old }
{
    if entry.len() != ENTRY_LENGTH {
        return;
    }
    entry[0] = long_kind(byte_at(short, SCHEME_START));
    entry[READER_START] = byte_at(short, READER_START);
    entry[READER_START + 1] = byte_at(short, READER_START + 1);
    entry[LENGTH_START] = byte_at(short, SHORT_LENGTH_START);
    put_fitted(short, SHORT_LABEL_START, &mut entry[LABEL_START..]);
}

// Stores the short entry that stands for a long one, if the buffer is as long as it.
pub fn put_short(entry: &[u8], short: &mut [u8])
    ensures { short.new ≡ filled_by (short_of entry.now) short.old }
{
    let length = byte_at(entry, LENGTH_START);
    let kind = kind_for(length);
    if short.len() != SHORT_LABEL_START + room_of(kind) {
        return;
    }
    short[0] = kind;
    short[READER_START] = byte_at(entry, READER_START);
    short[READER_START + 1] = byte_at(entry, READER_START + 1);
    short[SCHEME_START] = scheme_number(byte_at(entry, 0));
    short[SHORT_LENGTH_START] = length;
    put_fitted(entry, LABEL_START, &mut short[SHORT_LABEL_START..]);
}
