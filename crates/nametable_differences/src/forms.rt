// A table of either form, judged and left in the long one.
ghost use Rattle.std.specs.Prelude.{◌≡◌, false, ◌≤◌, ◌++◌, drop, length};
ghost use Rattle.basis.specs.Outcome.{bytes_outcome, buffer_after};
ghost use Rattle.nametable_format.specs.Format.{most_entries, table_length};
ghost use Rattle.nametable_differences.specs.Differences.{is_short, in_long_form};
ghost use Rattle.nametable_differences.specs.Internal.{long_form_outcome};

use basis::{ByteCount, Refusal};

// Whether a table is taken for one of the short form.
fn is_short(table: &[u8]) -> bool
    ensures { result ≡ is_short table.now }
{
    if table.len() == 0 {
        return false;
    }
    table[0] == nametable_short::SHORT_HEADER_KIND
}

// Copies a table to the front of a buffer, and answers how many bytes it has.
fn copy(table: &[u8], long: &mut [u8]) -> usize
    requires { length table.now ≤ length long.old }
    ensures count { result ≡ length table.now }
    ensures long_after { long.new ≡ table.now ++ drop (length table.now) long.old }
{
    let n = table.len();
    long[..n].copy_from_slice(table);
    n
}

// Judges a table of the long form and copies it, and answers how many bytes it has.
fn put_long(table: &[u8], long: &mut [u8]) -> Result<ByteCount, Refusal>
    requires table_value { is_short table.now ≡ false }
    requires most_entries_in_bounds { table_length most_entries ≤ length long.old }
    ensures result_value { bytes_outcome result ≡ long_form_outcome table.now }
    ensures long_after { long.new ≡ buffer_after (long_form_outcome table.now) (in_long_form table.now) long.old }
{
    nametable::read(table)?;
    Ok(ByteCount(copy(table, long)))
}

// Judges a table of either form and leaves it in the long one, and answers how many bytes that are.
pub(crate) fn put_long_form(table: &[u8], long: &mut [u8]) -> Result<ByteCount, Refusal>
    requires { table_length most_entries ≤ length long.old }
    ensures result_value { bytes_outcome result ≡ long_form_outcome table.now }
    ensures long_after { long.new ≡ buffer_after (long_form_outcome table.now) (in_long_form table.now) long.old }
{
    if is_short(table) {
        return nametable_short::to_long(table, long);
    }
    put_long(table, long)
}
