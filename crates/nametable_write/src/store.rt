// The bytes of a table's header and of an entry, stored once the list is judged good.
ghost use Rattle.std.specs.Prelude.{◌≡◌, [], ◌∷◌, ◌++◌, suc, ◌≤◌, ◌<◌, length};
ghost use Rattle.std.proofs.lemmas.List.Edits.{sets};
ghost use Rattle.nametable_format.specs.Format.{header_kind, header_length, most_entries, entry_length, label_start};
ghost use Rattle.nametable_write.specs.Writing.{entry, number_bytes, entry_bytes};
ghost use Rattle.nametable_write.specs.Internal.{Spelled};

use nametable_format::{COUNT_START, HEADER_KIND, LABEL_START, LENGTH_START, READER_START};
use scheme::Scheme;

// Stores a number as two bytes at an index, the high byte first.
fn put_number(bytes: &mut [u8], i: usize, number: u16)
    requires { suc i < length bytes.old }
    ensures { bytes.new ≡ sets bytes.old i (number_bytes number) }
{
    let [high, low] = number.to_be_bytes();
    bytes[i] = high;
    bytes[i + 1] = low;
}

// Stores the header of a table of so many entries.
pub(crate) fn put_header(count: usize, table: &mut [u8])
    requires count_le_most_entries { count ≤ most_entries }
    requires header_length_in_bounds { header_length ≤ length table.old }
    ensures { table.new ≡ sets table.old 0 (header_kind ∷ number_bytes count) }
{
    table[0] = HEADER_KIND;
    put_number(table, COUNT_START, count as u16);
}

// Stores the kind, the reader number and the length of the label of an entry.
fn put_form(kind: u8, reader: u16, count: u8, bytes: &mut [u8])
    requires { label_start ≤ length bytes.old }
    ensures { bytes.new ≡ sets bytes.old 0 ((kind ∷ number_bytes reader) ++ (count ∷ [])) }
{
    bytes[0] = kind;
    put_number(bytes, READER_START, reader);
    bytes[LENGTH_START] = count;
}

// Stores the bytes of an entry whose label may be written; its number names a scheme, since one that
// names none is refused before.
pub(crate) fn put_entry(reader: u16, number: u32, text: &[u32], bytes: &mut [u8])
    requires bytes_len { length bytes.old ≡ entry_length }
    requires spelled { Spelled (entry reader number text.now) }
    ensures { bytes.new ≡ entry_bytes (entry reader number text.now) }
{
    let scheme = scheme::of_own_number(number).unwrap_or(Scheme::Lace);
    bytes.fill(0);
    let answer = scheme::encode(scheme, text, &mut bytes[LABEL_START..]);
    let count = basis::bytes_written(answer);
    put_form(scheme::kind(scheme), reader, count as u8, bytes);
}
