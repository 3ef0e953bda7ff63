// The short form of the name table (02's new book): reading it, one entry of it by index, and moving
// a table between this form and the long one, that of `nametable`.
#![tactic(auto)]

mod moves;

ghost use Rattle.std.specs.Prelude.{◌≡◌, length};
ghost use Rattle.basis.specs.Outcome.{bytes_outcome, buffer_after};
ghost use Rattle.nametable_short.specs.Answer.{to_short, to_long, to_short_outcome, to_long_outcome};

use basis::{ByteCount, Refusal};
pub use nametable_short_format::SHORT_HEADER_KIND;
pub use nametable_short_read::{entry, read};

// Moves a long table to the short form.
pub fn to_short(table: &[u8], short: &mut [u8]) -> Result<ByteCount, Refusal>
    ensures result_value { bytes_outcome result ≡ to_short_outcome table.now (length short.old) }
    ensures short_after { short.new ≡ buffer_after (to_short_outcome table.now (length short.old)) (to_short table.now) short.old }
{
    let count = nametable::read(table)?;
    moves::put_short_table(table, count, short)
}

// Moves a short table to the long form.
pub fn to_long(short: &[u8], table: &mut [u8]) -> Result<ByteCount, Refusal>
    ensures result_value { bytes_outcome result ≡ to_long_outcome short.now (length table.old) }
    ensures table_after { table.new ≡ buffer_after (to_long_outcome short.now (length table.old)) (to_long short.now) table.old }
{
    let count = read(short)?;
    moves::put_long_table(short, count, table)
}
