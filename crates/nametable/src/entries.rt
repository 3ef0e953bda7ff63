// The entries of a table: the form of one, one read by itself, and all of them judged in turn.
ghost use Rattle.std.specs.Prelude.{◌≡◌, ◌≤◌, eqb, length, drop};
ghost use Rattle.basis.specs.Tests.{every_in};
ghost use Rattle.basis.specs.Outcome.{buffer_after};
ghost use Rattle.nametable_format.specs.Format.{header_length, most_entries, entry_length, text_capacity, table_length};
ghost use Rattle.nametable.specs.Answer.{table_outcome, entries_judged, text_in, entry_read, entry_outcome, entry_from};
ghost use Rattle.nametable.specs.Internal.{Tested};

use crate::{ReadEntry, TEXT_CAPACITY};
use basis::{ErrorCode, Refusal};
use nametable_format::{
    ENTRY_LENGTH, HEADER_LENGTH, LABEL_CAPACITY, LABEL_START, LENGTH_START, READER_START,
};
use scheme::Scheme;

// What the form of a lawful entry says: its scheme, its reader number and where its label ends.
#[derive(Clone, Copy)]
pub(crate) struct Form {
    pub scheme: Scheme,
    pub reader: u16,
    pub end: usize,
}

// Whether all bytes are zero.
fn is_zero(bytes: &[u8]) -> bool
    ensures { result ≡ every_in (λ b. eqb b 0) bytes.now }
{
    bytes.iter().all(|&b| b == 0)
}

// Tests the form of an entry whose reader number is to be at least the least.
fn form_of(entry: &[u8], least: usize) -> Option<Form>
    requires { length entry.now ≡ entry_length }
    ensures { Tested least entry.now result }
{
    let scheme = scheme::of_kind(entry[0])?;
    let reader = nametable_format::number_at(entry, READER_START);
    if reader < least {
        return None;
    }
    let length = entry[LENGTH_START] as usize;
    if length < 1 {
        return None;
    }
    if LABEL_CAPACITY < length {
        return None;
    }
    let end = LABEL_START + length;
    if !is_zero(&entry[end..]) {
        return None;
    }
    Some(Form {
        scheme,
        reader: reader as u16,
        end,
    })
}

// Reads an entry whose reader number is to be at least the least. An error is reported at the
// position, and leaves the text.
pub(crate) fn read_entry(
    entry: &[u8],
    least: usize,
    position: usize,
    text: &mut [u32],
) -> Result<ReadEntry, Refusal>
    requires len { length entry.now ≡ entry_length }
    requires text_capacity_in_bounds { text_capacity ≤ length text.old }
    ensures result_value { entry_outcome result ≡ entry_from entry.now (entry_read least position entry.now) }
    ensures text_after { text.new ≡ buffer_after (entry_read least position entry.now) (text_in entry.now) text.old }
{
    let Some(form) = form_of(entry, least) else {
        return Err(ErrorCode::Malformed.at(position));
    };
    match scheme::decode(form.scheme, &entry[LABEL_START..form.end], text) {
        Err(refusal) => Err(refusal.code.at(position)),
        Ok(count) => Ok(ReadEntry {
            reader: form.reader,
            scheme: form.scheme,
            count,
        }),
    }
}

// Judges an entry as `read_entry` does, and drops its text.
fn judge_entry(entry: &[u8], least: usize, position: usize) -> Result<ReadEntry, Refusal>
    requires { length entry.now ≡ entry_length }
    ensures { entry_outcome result ≡ entry_from entry.now (entry_read least position entry.now) }
{
    let mut text = [0u32; TEXT_CAPACITY];
    read_entry(entry, least, position, &mut text)
}

// Judges all entries of a table whose length is right.
pub(crate) fn judge(table: &[u8], count: usize) -> Result<usize, Refusal>
    requires { (length table.now ≡ table_length count) × (count ≤ most_entries) }
    ensures { table_outcome result ≡ entries_judged 0 0 count (drop header_length table.now) count }
{
    let mut least = 0;
    for i in 0..count {
        let start = HEADER_LENGTH + ENTRY_LENGTH * i;
        let end = start + ENTRY_LENGTH;
        let entry = judge_entry(&table[start..end], least, i)?;
        least = entry.reader as usize + 1;
    }
    Ok(count)
}
