// A table that was judged whole, stored in the other form.
ghost use Rattle.std.specs.Prelude.{◌≡◌, ◌+◌, ◌≤◌, length, drop};
ghost use Rattle.std.proofs.lemmas.List.Edits.{sets};
ghost use Rattle.basis.specs.Outcome.{done, bytes_outcome, buffer_after};
ghost use Rattle.basis.specs.Internal.{Stored};
ghost use Rattle.nametable_format.specs.Format.{header_length, most_entries, table_length};
ghost use Rattle.nametable.specs.Answer.{read_outcome};
ghost use Rattle.nametable_short.specs.Answer.{short_read_outcome, header_as, short_entries, long_entries, to_short, to_long, to_short_outcome, to_long_outcome};

use basis::{ByteCount, ErrorCode, Refusal};
use nametable_format::{COUNT_START, ENTRY_LENGTH, HEADER_KIND, HEADER_LENGTH, LENGTH_START};
use nametable_short_format::{SHORT_HEADER_KIND, SHORT_LABEL_START};

// Stores the header of a table with another kind.
fn put_header(kind: u8, table: &[u8], moved: &mut [u8])
    requires { (header_length ≤ length table.now) × (header_length ≤ length moved.old) }
    ensures { moved.new ≡ sets moved.old 0 (header_as kind table.now) }
{
    moved[0] = kind;
    moved[COUNT_START] = table[COUNT_START];
    moved[COUNT_START + 1] = table[COUNT_START + 1];
}

// How many bytes the short form of a long table of so many entries has.
fn short_bytes(table: &[u8], count: usize) -> usize
    requires { (length table.now ≡ table_length count) × (count ≤ most_entries) }
    ensures { result ≡ header_length + length (short_entries count (drop header_length table.now)) }
{
    let mut bytes = HEADER_LENGTH;
    for i in 0..count {
        let kind = nametable_short_format::kind_for(
            table[HEADER_LENGTH + ENTRY_LENGTH * i + LENGTH_START],
        );
        bytes += SHORT_LABEL_START + nametable_short_format::room_of(kind);
    }
    bytes
}

// Stores the short entries of a long table of so many entries after the header.
fn put_short_entries(table: &[u8], count: usize, short: &mut [u8])
    requires table_len { (length table.now ≡ table_length count) × (count ≤ most_entries) }
    requires table_in_bounds { header_length + length (short_entries count (drop header_length table.now)) ≤ length short.old }
    ensures { Stored short.old header_length (short_entries count (drop header_length table.now)) short.new (header_length + length (short_entries count (drop header_length table.now))) }
{
    let mut at = HEADER_LENGTH;
    for i in 0..count {
        let start = HEADER_LENGTH + ENTRY_LENGTH * i;
        let end = start + ENTRY_LENGTH;
        let kind = nametable_short_format::kind_for(table[start + LENGTH_START]);
        let next = at + (SHORT_LABEL_START + nametable_short_format::room_of(kind));
        nametable_short_format::put_short(&table[start..end], &mut short[at..next]);
        at = next;
    }
}

// Stores the short form of a long table that was judged whole, if there is room.
pub(crate) fn put_short_table(
    table: &[u8],
    count: usize,
    short: &mut [u8],
) -> Result<ByteCount, Refusal>
    requires { read_outcome table.now ≡ done count }
    ensures result_value { bytes_outcome result ≡ to_short_outcome table.now (length short.old) }
    ensures short_after { short.new ≡ buffer_after (to_short_outcome table.now (length short.old)) (to_short table.now) short.old }
{
    let needed = short_bytes(table, count);
    if short.len() < needed {
        return Err(ErrorCode::Capacity.at(0));
    }
    put_header(SHORT_HEADER_KIND, table, short);
    put_short_entries(table, count, short);
    Ok(ByteCount(needed))
}

// Stores the long entries of a short table of so many entries after the header.
fn put_long_entries(short: &[u8], count: usize, table: &mut [u8])
    requires { (header_length ≤ length short.now) × (count ≤ most_entries) × (table_length count ≤ length table.old) }
    ensures { Stored table.old header_length (long_entries count (drop header_length short.now)) table.new (table_length count) }
{
    let mut start = HEADER_LENGTH;
    let mut at = HEADER_LENGTH;
    // The index is named for the invariant.
    for _i in 0..count {
        let end = nametable_short_format::end_of(short, start);
        let next = at + ENTRY_LENGTH;
        nametable_short_format::put_long(&short[start..end], &mut table[at..next]);
        start = end;
        at = next;
    }
}

// Stores the long form of a short table that was judged whole, if there is room.
pub(crate) fn put_long_table(
    short: &[u8],
    count: usize,
    table: &mut [u8],
) -> Result<ByteCount, Refusal>
    requires { short_read_outcome short.now ≡ done count }
    ensures result_value { bytes_outcome result ≡ to_long_outcome short.now (length table.old) }
    ensures table_after { table.new ≡ buffer_after (to_long_outcome short.now (length table.old)) (to_long short.now) table.old }
{
    let needed = HEADER_LENGTH + ENTRY_LENGTH * count;
    if table.len() < needed {
        return Err(ErrorCode::Capacity.at(0));
    }
    put_header(HEADER_KIND, short, table);
    put_long_entries(short, count, table);
    Ok(ByteCount(needed))
}
