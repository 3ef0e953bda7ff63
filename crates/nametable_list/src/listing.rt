// What is printed for a table, written into the buffer passed.
ghost use Rattle.std.specs.Prelude.{◌*◌, ◌≤◌, ◌≡◌, ◌++◌, length, drop};
ghost use Rattle.basis.specs.Outcome.{done, number_of};
ghost use Rattle.nametable.specs.Answer.{read_outcome};
ghost use Rattle.report.specs.Lines.{refused_at_line};
ghost use Rattle.report.specs.Answer.{line_room};
ghost use Rattle.streams.specs.Reading.{believed};
ghost use Rattle.nametable_list.specs.Listing.{entry_line, entry_lines, listing};
ghost use Rattle.nametable_list.specs.Internal.{Found, listing_room};

use basis::Refusal;
use nametable::TEXT_CAPACITY;
use streams::ReadFailed;

// Writes the line of a refusal, and answers its length.
fn put_refusal(refusal: Refusal, out: &mut [u8]) -> usize
    requires { line_room ≤ length out.old }
    ensures value { result ≡ length (refused_at_line (number_of refusal.code) refusal.position) }
    ensures out_after { out.new ≡ refused_at_line (number_of refusal.code) refusal.position ++ drop (length (refused_at_line (number_of refusal.code) refusal.position)) out.old }
{
    basis::bytes_written(report::refused_at_line(u32::from(refusal.code), refusal.position, out))
}

// Writes the line of an entry that is there, and answers its length.
fn put_entry(table: &[u8], index: usize, out: &mut [u8]) -> usize
    requires found { Found table.now index }
    requires line_room_in_bounds { line_room ≤ length out.old }
    ensures value { result ≡ length (entry_line table.now index) }
    ensures out_after { out.new ≡ entry_line table.now index ++ drop (length (entry_line table.now index)) out.old }
{
    // Fixed memory, so a buffer for the most points there can be, and their count.
    let mut points = [0u32; TEXT_CAPACITY];
    match nametable::judged_entry(table, index, &mut points) {
        Err(_) => 0,
        Ok(entry) => {
            let n = entry.count.0;
            let letter = scheme::letter(entry.scheme);
            basis::bytes_written(report::list_line(entry.reader, letter, &points[..n], out))
        }
    }
}

// Writes the lines of all entries of a table that reads whole, and answers how many bytes that are.
fn put_entries(table: &[u8], total: usize, out: &mut [u8]) -> usize
    requires table_value { read_outcome table.now ≡ done total }
    requires total_in_bounds { line_room * total ≤ length out.old }
    ensures value { result ≡ length (entry_lines table.now total) }
    ensures out_after { out.new ≡ entry_lines table.now total ++ drop (length (entry_lines table.now total)) out.old }
{
    let mut at = 0;
    for i in 0..total {
        at += put_entry(table, i, &mut out[at..]);
    }
    at
}

// Writes what is printed for a table, and answers how many bytes that are.
fn put_listing(table: &[u8], out: &mut [u8]) -> usize
    requires { listing_room ≤ length out.old }
    ensures value { result ≡ length (listing table.now) }
    ensures out_after { out.new ≡ listing table.now ++ drop (length (listing table.now)) out.old }
{
    match nametable::read(table) {
        Err(refusal) => put_refusal(refusal, out),
        Ok(total) => put_entries(table, total, out),
    }
}

// Writes what is printed for what was read of a table, and answers how many bytes that are. If a
// read failed, that is what is printed for an empty table, whatever was read before.
pub(crate) fn put_believed(ending: Result<(), ReadFailed>, bytes: &[u8], out: &mut [u8]) -> usize
    requires { listing_room ≤ length out.old }
    ensures value { result ≡ length (listing (believed ending bytes.now)) }
    ensures out_after { out.new ≡ listing (believed ending bytes.now) ++ drop (length (listing (believed ending bytes.now))) out.old }
{
    put_listing(streams::believed_bytes(ending, bytes), out)
}
