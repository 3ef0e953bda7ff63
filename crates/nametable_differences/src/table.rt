// Whole long tables, and what is read of them.
ghost use Rattle.std.specs.Prelude.{◌≡◌, ◌++◌, ◌≤◌, ◌<◌, length, drop};
ghost use Rattle.basis.specs.Outcome.{done};
ghost use Rattle.scheme.specs.Naming as naming;
ghost use Rattle.nametable_format.specs.Format.{text_capacity, count_of, entry_at, scheme_in};
ghost use Rattle.nametable.specs.Answer.{read_outcome, entry_text};
ghost use Rattle.nametable_differences.specs.Differences.{reader_numbers};
ghost use Rattle.nametable_differences.specs.Internal.{next_reader};

use nametable::ReadEntry;
use nametable_format::{ENTRY_LENGTH, HEADER_LENGTH, READER_START};

// How many reader numbers there are.
const READER_NUMBERS: usize = 65536;

// A long table that was judged whole.
#[derive(Clone, Copy)]
pub(crate) struct WholeTable<'a> {
    pub(crate) bytes: &'a [u8],
    ghost whole: { read_outcome bytes.now ≡ done (count_of bytes.now) },
}

// Two whole long tables, and the index of the next entry of each.
#[derive(Clone, Copy)]
pub(crate) struct Pair<'a> {
    pub(crate) left: WholeTable<'a>,
    pub(crate) i: usize,
    pub(crate) right: WholeTable<'a>,
    pub(crate) j: usize,
}

impl WholeTable<'_> {
    // The number of its entries.
    pub(crate) fn entry_count(&self) -> usize
        ensures { result ≡ count_of self.now.bytes.now }
    {
        (self.bytes.len() - HEADER_LENGTH) / ENTRY_LENGTH
    }

    // The reader number of the entry at an index; past the last entry a number above all.
    pub(crate) fn next_reader(&self, index: usize) -> usize
        ensures value { (result ≡ next_reader self.now.bytes.now index) × (result ≤ reader_numbers) }
        ensures upper_bound { index < count_of self.now.bytes.now → result < reader_numbers }
    {
        if self.entry_count() <= index {
            return READER_NUMBERS;
        }
        nametable_format::number_at(
            self.bytes,
            HEADER_LENGTH + ENTRY_LENGTH * index + READER_START,
        )
    }

    // Reads the entry at an index.
    pub(crate) fn read_entry(&self, index: usize, text: &mut [u32]) -> ReadEntry
        requires index_in_bounds { index < count_of self.now.bytes.now }
        requires text_capacity_in_bounds { text_capacity ≤ length text.old }
        ensures scheme_value { naming.number_of result.scheme ≡ naming.number_of (scheme_in (entry_at self.now.bytes.now index)) }
        ensures count_value { result.count.0 ≡ length (entry_text self.now.bytes.now index) }
        ensures text_after { text.new ≡ entry_text self.now.bytes.now index ++ drop (length (entry_text self.now.bytes.now index)) text.old }
    {
        nametable::judged_entry(self.bytes, index, text).unwrap()
    }
}
