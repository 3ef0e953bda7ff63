// Reading the short form of the name table (02's new book): a whole table, and one entry of it by
// index.
#![tactic(auto)]

mod entries;

ghost use Rattle.std.specs.Prelude.{◌≡◌, length};
ghost use Rattle.basis.specs.Outcome.{buffer_after};
ghost use Rattle.nametable.specs.Answer.{table_outcome, entry_outcome, entry_from};
ghost use Rattle.nametable_short_format.specs.Format.{short_entry_at, long_of};
ghost use Rattle.nametable_short_read.specs.Answer.{short_read_outcome, short_entry_text, short_find_outcome};

use basis::{ErrorCode, Refusal};
use nametable::{ReadEntry, TEXT_CAPACITY};
use nametable_short_format::SHORT_HEADER_KIND;

// Judges a whole short table.
pub fn read(table: &[u8]) -> Result<usize, Refusal>
    ensures { table_outcome result ≡ short_read_outcome table.now }
{
    let count = nametable::header(SHORT_HEADER_KIND, table)?;
    entries::judge(table, count)
}

// Reads the entry at an index of a short table, which is judged whole before.
#[tactic(auto, using(crate::proofs::TableLaws::short_no_room), unfolding(nametable::specs::Answer::entry_outcome, nametable::specs::Answer::entry_from, basis::specs::Outcome::buffer_after))]
pub fn entry(table: &[u8], index: usize, text: &mut [u32]) -> Result<ReadEntry, Refusal>
    ensures result_value { entry_outcome result ≡ entry_from (long_of (short_entry_at table.now index)) (short_find_outcome table.now index (length text.old)) }
    ensures text_after { text.new ≡ buffer_after (short_find_outcome table.now index (length text.old)) (short_entry_text table.now index) text.old }
{
    if text.len() < TEXT_CAPACITY {
        return Err(ErrorCode::Capacity.at(0));
    }
    let count = read(table)?;
    entries::read_at(table, count, index, text)
}
