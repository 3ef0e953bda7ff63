// The list that is to be written: its room, the tests on its rows, and its entries judged and stored in turn.
ghost use Rattle.std.specs.Prelude.{◌≡◌, ◌≤◌, eqb, ltb, length};
ghost use Rattle.basis.specs.Outcome.{bytes_outcome};
ghost use Rattle.basis.specs.Internal.{Stored};
ghost use Rattle.scheme.specs.Coding.{encode_outcome};
ghost use Rattle.nametable_format.specs.Format.{header_length, label_capacity, table_length};
ghost use Rattle.nametable_write.specs.Writing.{entry, sum_of, entry_written, entries_written, entries_bytes};
ghost use Rattle.nametable_write.specs.Internal.{AllSpelled};
ghost use Rattle.nametable_write.specs.Tested.{Tested, entries_in};

use crate::entry_list::EntryList;
use crate::store;
use basis::{ByteCount, ErrorCode, Refusal};
use nametable_format::{ENTRY_LENGTH, HEADER_LENGTH, LABEL_CAPACITY, MOST_ENTRIES};
use scheme::Scheme;

// Whether so many bytes are too few for a table of so many entries.
pub(crate) fn lacks_room(bytes: usize, count: usize) -> bool
    ensures { result ≡ ltb bytes (table_length count) }
{
    if bytes < HEADER_LENGTH {
        return true;
    }
    (bytes - HEADER_LENGTH) / ENTRY_LENGTH < count
}

// Whether the lengths sum to the total.
fn sum_is(lengths: &[usize], total: usize) -> bool
    ensures { result ≡ eqb (sum_of lengths.now) total }
{
    let mut left = total;
    for &length in lengths {
        if left < length {
            return false;
        }
        left -= length;
    }
    left == 0
}

// Judges the label of a text: it is encoded, and dropped.
fn judge_label(scheme: Scheme, text: &[u32]) -> Result<ByteCount, Refusal>
    ensures { bytes_outcome result ≡ encode_outcome scheme label_capacity text.now }
{
    let mut label = [0u8; LABEL_CAPACITY];
    scheme::encode(scheme, text, &mut label)
}

// Judges one entry, whose reader number is to be at least the least.
fn judge_listed(reader: u16, number: u32, text: &[u32], least: usize) -> Result<ByteCount, Refusal>
    ensures { bytes_outcome result ≡ entry_written least (entry reader number text.now) }
{
    if (reader as usize) < least {
        return Err(ErrorCode::Malformed.at(0));
    }
    let Some(scheme) = scheme::of_own_number(number) else {
        return Err(ErrorCode::Malformed.at(0));
    };
    judge_label(scheme, text)
}

impl<'a> EntryList<'a> {
    // The list of the rows, if they are those of one.
    pub(crate) fn of(
        readers: &'a [u16],
        schemes: &'a [u32],
        lengths: &'a [usize],
        points: &'a [u32],
    ) -> Option<Self>
        ensures { Tested readers.now schemes.now lengths.now points.now result }
    {
        let count = readers.len();
        if count < 1 {
            return None;
        }
        if MOST_ENTRIES < count {
            return None;
        }
        if schemes.len() != count {
            return None;
        }
        if lengths.len() != count {
            return None;
        }
        if !sum_is(lengths, points.len()) {
            return None;
        }
        Some(EntryList {
            readers,
            schemes,
            lengths,
            points,
        })
    }

    // Judges the entries, and answers the bytes of their table.
    pub(crate) fn judge(&self) -> Result<ByteCount, Refusal>
        ensures { bytes_outcome result ≡ entries_written 0 0 (entries_in self.now) (table_length (length self.now.readers.now)) }
    {
        let mut least = 0;
        let mut start = 0;
        for (i, &reader) in self.readers.iter().enumerate() {
            let end = start + self.lengths[i];
            if let Err(refusal) = judge_listed(
                reader,
                self.schemes[i],
                &self.points[start..end],
                least,
            ) {
                return Err(refusal.code.at(i));
            }
            least = reader as usize + 1;
            start = end;
        }
        Ok(ByteCount(HEADER_LENGTH + ENTRY_LENGTH * self.readers.len()))
    }

    // Stores the entries after the header.
    pub(crate) fn put_entries(&self, table: &mut [u8])
        requires all_spelled { AllSpelled (entries_in self.now) }
        requires readers_in_bounds { table_length (length self.now.readers.now) ≤ length table.old }
        ensures { Stored table.old header_length (entries_bytes (entries_in self.now)) table.new (table_length (length self.now.readers.now)) }
    {
        let mut start = 0;
        let mut at = HEADER_LENGTH;
        for (i, &reader) in self.readers.iter().enumerate() {
            let end = start + self.lengths[i];
            let next = at + ENTRY_LENGTH;
            store::put_entry(
                reader,
                self.schemes[i],
                &self.points[start..end],
                &mut table[at..next],
            );
            start = end;
            at = next;
        }
    }
}
