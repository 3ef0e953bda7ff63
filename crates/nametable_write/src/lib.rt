// Writing a name table from a list: all of it is judged before the first byte is stored.
#![tactic(auto)]

mod entry_list;
mod list;
mod store;

ghost use Rattle.std.specs.Prelude.{◌≡◌, length};
ghost use Rattle.basis.specs.Outcome.{bytes_outcome, buffer_after};
ghost use Rattle.nametable_write.specs.Writing.{entries_of, write_outcome, table_of};

use basis::{ByteCount, ErrorCode, Refusal};
use entry_list::EntryList;

// Writes the table of a list: reader numbers, schemes as numbers, and the texts, each as long as its
// length says, one after the other in the points.
// Kept as four rows: the contract of `write` may not change, and README names it. Below it they are one list.
pub fn write(
    readers: &[u16],
    schemes: &[u32],
    lengths: &[usize],
    points: &[u32],
    table: &mut [u8],
) -> Result<ByteCount, Refusal>
    ensures result_value { bytes_outcome result ≡ write_outcome (length table.old) readers.now schemes.now lengths.now points.now }
    ensures table_after { table.new ≡ buffer_after (write_outcome (length table.old) readers.now schemes.now lengths.now points.now) (table_of (entries_of readers.now schemes.now lengths.now points.now)) table.old }
{
    if list::lacks_room(table.len(), readers.len()) {
        return Err(ErrorCode::Capacity.at(0));
    }
    let Some(list) = EntryList::of(readers, schemes, lengths, points) else {
        return Err(ErrorCode::Malformed.at(0));
    };
    let count = list.judge()?;
    store::put_header(readers.len(), table);
    list.put_entries(table);
    Ok(count)
}
