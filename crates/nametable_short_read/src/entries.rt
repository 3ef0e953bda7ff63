// The entries of a short table: one read, all of them judged in turn, and one found by its index.
ghost use Rattle.std.specs.Prelude.{◌≡◌, ◌≤◌, length, drop};
ghost use Rattle.basis.specs.Outcome.{done, buffer_after};
ghost use Rattle.nametable_format.specs.Format.{header_length, text_capacity, kind_of};
ghost use Rattle.nametable.specs.Answer.{table_outcome, text_in, entry_outcome, entry_from};
ghost use Rattle.nametable_short_format.specs.Format.{short_length, short_entry_at, long_of};
ghost use Rattle.nametable_short_read.specs.Answer.{short_entries_judged, short_read_outcome, short_entry_text, short_find_outcome};
ghost use Rattle.nametable_short_read.specs.Internal.{BeginsAt, Stepped, short_entry_read};

use basis::{ErrorCode, Refusal};
use nametable::{ReadEntry, TEXT_CAPACITY};
use nametable_format::{ENTRY_LENGTH, HEADER_LENGTH};
use nametable_short_format::{SHORT_LABEL_START, SHORT_LENGTH_START};

// What judging the next entry answers: its reader number and where it ends.
#[derive(Clone, Copy)]
pub(crate) struct Judged {
    pub reader: u16,
    pub end: usize,
}

// Reads a whole short entry whose reader number is to be at least the least, as the long entry that
// it stands for. An error is reported at the position, and leaves the text.
fn read_short(
    short: &[u8],
    least: usize,
    position: usize,
    text: &mut [u32],
) -> Result<ReadEntry, Refusal>
    requires short_len { length short.now ≡ short_length (kind_of short.now) }
    requires text_capacity_in_bounds { text_capacity ≤ length text.old }
    ensures result_value { entry_outcome result ≡ entry_from (long_of short.now) (short_entry_read least position short.now) }
    ensures text_after { text.new ≡ buffer_after (short_entry_read least position short.now) (text_in (long_of short.now)) text.old }
{
    let kind = nametable_short_format::kind_for(short[SHORT_LENGTH_START]);
    if kind != short[0] {
        return Err(ErrorCode::Malformed.at(position));
    }
    let mut entry = [0u8; ENTRY_LENGTH];
    nametable_short_format::put_long(short, &mut entry);
    nametable::lone_entry(&entry, least, position, text)
}

// Judges a whole short entry as `read_short` does, and drops its text.
fn judge_short(short: &[u8], least: usize, position: usize) -> Result<ReadEntry, Refusal>
    requires { length short.now ≡ short_length (kind_of short.now) }
    ensures { entry_outcome result ≡ entry_from (long_of short.now) (short_entry_read least position short.now) }
{
    let mut text = [0u32; TEXT_CAPACITY];
    read_short(short, least, position, &mut text)
}

// Judges the entry that begins at a byte of the table and has this index: whether it is there, of a
// known kind and whole, then the entry itself, whose reader number is to be at least the least.
fn judge_next(table: &[u8], start: usize, least: usize, index: usize) -> Result<Judged, Refusal>
    requires { start ≤ length table.now }
    ensures { Stepped table.now start least index result }
{
    if start == table.len() {
        return Err(ErrorCode::Truncated.at(0));
    }
    let room = nametable_short_format::room_of(table[start]);
    if room == 0 {
        return Err(ErrorCode::Malformed.at(index));
    }
    if table.len() - start < SHORT_LABEL_START + room {
        return Err(ErrorCode::Truncated.at(0));
    }
    let end = start + (SHORT_LABEL_START + room);
    let entry = judge_short(&table[start..end], least, index)?;
    Ok(Judged {
        reader: entry.reader,
        end,
    })
}

// Judges all entries of a short table whose header announces so many, and that nothing follows them.
pub(crate) fn judge(table: &[u8], count: usize) -> Result<usize, Refusal>
    requires { header_length ≤ length table.now }
    ensures { table_outcome result ≡ short_entries_judged 0 0 count (drop header_length table.now) count }
{
    let mut least = 0;
    let mut start = HEADER_LENGTH;
    for i in 0..count {
        let judged = judge_next(table, start, least, i)?;
        least = judged.reader as usize + 1;
        start = judged.end;
    }
    if start < table.len() {
        return Err(ErrorCode::Malformed.at(0));
    }
    Ok(count)
}

// Where the entry at an index begins.
fn start_of(table: &[u8], index: usize) -> usize
    requires { header_length ≤ length table.now }
    ensures { BeginsAt table.now index result }
{
    let mut start = HEADER_LENGTH;
    // The index is named for the invariant.
    for _i in 0..index {
        start = nametable_short_format::end_of(table, start);
    }
    start
}

// Reads the entry at an index of a short table that was judged whole, with so many entries.
pub(crate) fn read_at(
    table: &[u8],
    count: usize,
    index: usize,
    text: &mut [u32],
) -> Result<ReadEntry, Refusal>
    requires table_value { short_read_outcome table.now ≡ done count }
    requires text_capacity_in_bounds { text_capacity ≤ length text.old }
    ensures result_value { entry_outcome result ≡ entry_from (long_of (short_entry_at table.now index)) (short_find_outcome table.now index (length text.old)) }
    ensures text_after { text.new ≡ buffer_after (short_find_outcome table.now index (length text.old)) (short_entry_text table.now index) text.old }
{
    if count <= index {
        return Err(ErrorCode::Malformed.at(0));
    }
    let start = start_of(table, index);
    let end = nametable_short_format::end_of(table, start);
    read_short(&table[start..end], 0, index, text)
}
