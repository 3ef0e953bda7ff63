// The name table (the paper's book of names): reading it, one entry of it by index, its header and an
// entry by themselves, and writing it.
#![tactic(auto)]

mod entries;

ghost use Rattle.std.specs.Prelude.{◌≡◌, length};
ghost use Rattle.basis.specs.Outcome.{bytes_outcome, buffer_after};
ghost use Rattle.nametable_format.specs.Format.{entry_at};
ghost use Rattle.nametable.specs.Answer.{table_outcome, header_outcome, read_outcome, entry_outcome, entry_from, find_outcome, text_in, lone_entry_outcome, judged_entry_outcome, entry_text};
ghost use Rattle.nametable_write.specs.Writing.{entries_of, write_outcome, table_of};

use basis::{ByteCount, ErrorCode, Refusal};
use nametable_format::{COUNT_START, ENTRY_LENGTH, HEADER_KIND, HEADER_LENGTH, MOST_ENTRIES};
use scheme::Scheme;
use utf16::PointCount;

// The room that a caller must have for the text of an entry, in points.
pub const TEXT_CAPACITY: usize = 63;

// What reading an entry answers: its reader number, its scheme, and how many points its text has.
#[derive(Clone, Copy)]
pub struct ReadEntry {
    pub reader: u16,
    pub scheme: Scheme,
    pub count: PointCount,
}

// Judges the header of a table, which is to be of this kind, and answers the number of entries that
// it announces.
pub fn header(kind: u8, table: &[u8]) -> Result<usize, Refusal>
    ensures { table_outcome result ≡ header_outcome kind table.now }
{
    if table.len() == 0 {
        return Err(ErrorCode::Truncated.at(0));
    }
    let first = table[0];
    if first != kind {
        return Err(ErrorCode::Malformed.at(0));
    }
    if table.len() < HEADER_LENGTH {
        return Err(ErrorCode::Truncated.at(0));
    }
    let count = nametable_format::number_at(table, COUNT_START);
    if count < 1 {
        return Err(ErrorCode::Malformed.at(0));
    }
    if MOST_ENTRIES < count {
        return Err(ErrorCode::Malformed.at(0));
    }
    Ok(count)
}

// Judges a whole table.
pub fn read(table: &[u8]) -> Result<usize, Refusal>
    ensures { table_outcome result ≡ read_outcome table.now }
{
    let count = header(HEADER_KIND, table)?;
    let length = HEADER_LENGTH + ENTRY_LENGTH * count;
    if table.len() < length {
        return Err(ErrorCode::Truncated.at(0));
    }
    if length < table.len() {
        return Err(ErrorCode::Malformed.at(0));
    }
    entries::judge(table, count)
}

// Reads an entry that comes without its table, and whose reader number is to be at least the least.
// An error of the entry is reported at the position.
#[tactic(auto, using(crate::proofs::TableLaws::lone_stops), unfolding(crate::specs::Answer::entry_outcome, crate::specs::Answer::entry_from, basis::specs::Outcome::buffer_after))]
pub fn lone_entry(
    entry: &[u8],
    least: usize,
    position: usize,
    text: &mut [u32],
) -> Result<ReadEntry, Refusal>
    ensures result_value { entry_outcome result ≡ entry_from entry.now (lone_entry_outcome least position (length text.old) entry.now) }
    ensures text_after { text.new ≡ buffer_after (lone_entry_outcome least position (length text.old) entry.now) (text_in entry.now) text.old }
{
    if text.len() < TEXT_CAPACITY {
        return Err(ErrorCode::Capacity.at(0));
    }
    if entry.len() < ENTRY_LENGTH {
        return Err(ErrorCode::Truncated.at(0));
    }
    if ENTRY_LENGTH < entry.len() {
        return Err(ErrorCode::Malformed.at(0));
    }
    entries::read_entry(entry, least, position, text)
}

// Reads the entry at an index of a table that was judged before. Nothing but the header's count and
// that entry is looked at.
pub fn judged_entry(table: &[u8], index: usize, text: &mut [u32]) -> Result<ReadEntry, Refusal>
    ensures result_value { entry_outcome result ≡ entry_from (entry_at table.now index) (judged_entry_outcome table.now index (length text.old)) }
    ensures text_after { text.new ≡ buffer_after (judged_entry_outcome table.now index (length text.old)) (entry_text table.now index) text.old }
{
    if text.len() < TEXT_CAPACITY {
        return Err(ErrorCode::Capacity.at(0));
    }
    if table.len() < HEADER_LENGTH {
        return Err(ErrorCode::Truncated.at(0));
    }
    let count = nametable_format::number_at(table, COUNT_START);
    if count <= index {
        return Err(ErrorCode::Malformed.at(0));
    }
    let start = HEADER_LENGTH + ENTRY_LENGTH * index;
    let end = start + ENTRY_LENGTH;
    if table.len() < end {
        return Err(ErrorCode::Truncated.at(0));
    }
    entries::read_entry(&table[start..end], 0, index, text)
}

// Reads the entry at an index of a table, which is judged whole before.
pub fn entry(table: &[u8], index: usize, text: &mut [u32]) -> Result<ReadEntry, Refusal>
    ensures result_value { entry_outcome result ≡ entry_from (entry_at table.now index) (find_outcome table.now index (length text.old)) }
    ensures text_after { text.new ≡ buffer_after (find_outcome table.now index (length text.old)) (entry_text table.now index) text.old }
{
    if text.len() < TEXT_CAPACITY {
        return Err(ErrorCode::Capacity.at(0));
    }
    read(table)?;
    judged_entry(table, index, text)
}

// Writes the table of a list: reader numbers, schemes as numbers, and the texts, each as long as its
// length says, one after the other in the points. The steps are those of `nametable_write`.
pub fn write(
    readers: &[u16],
    schemes: &[u32],
    lengths: &[usize],
    points: &[u32],
    table: &mut [u8],
) -> Result<ByteCount, Refusal>
    ensures result_value { bytes_outcome result ≡ write_outcome (length table.old) readers.now schemes.now lengths.now points.now }
    ensures table_after { table.new ≡ buffer_after (write_outcome (length table.old) readers.now schemes.now lengths.now points.now) (table_of (entries_of readers.now schemes.now lengths.now points.now)) table.old }
{
    nametable_write::write(readers, schemes, lengths, points, table)
}
