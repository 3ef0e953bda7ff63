// The converter, the schemes, host names, the name table in both forms, the receiver and the difference
// report, exported to C for tests alone. In `answer` each stores five numbers, if it has five elements or more: code (0 when done), position,
// count, and for an entry of a table reader number and scheme number.
#![tactic(auto)]

mod answers;
mod receiving;

ghost use Rattle.std.specs.Prelude.{◌≡◌, length, take};
ghost use Rattle.basis.specs.Outcome.{buffer_after};
ghost use Rattle.utf16.specs.Units.{to_units, to_points};
ghost use Rattle.utf16.specs.Answer.{to_units_outcome, to_points_outcome};
ghost use Rattle.altdude.specs.Encoding.{label_of as altdude_label_of};
ghost use Rattle.altdude.specs.Decoding.{text_of as altdude_text_of};
ghost use Rattle.altdude.specs.Marks.{marked, marks_of as altdude_marks_of};
ghost use Rattle.altdude.specs.Answer.{encode_outcome as altdude_encode_outcome, encode_marked_outcome as altdude_encode_marked_outcome, decode_outcome as altdude_decode_outcome, decode_marked_outcome as altdude_decode_marked_outcome};
ghost use Rattle.ascii.specs.Ldh.{is_host_label};
ghost use Rattle.lace_encoding.specs.Encoding.{label_of as lace_label_of};
ghost use Rattle.lace_decoding.specs.Decoding.{text_of as lace_text_of, marks_of as lace_marks_of};
ghost use Rattle.lace.specs.Answer.{encode_outcome as lace_encode_outcome, encode_marked_outcome as lace_encode_marked_outcome, decode_outcome as lace_decode_outcome, decode_marked_outcome as lace_decode_marked_outcome};
ghost use Rattle.brace_symbols.specs.Encoding.{label_of as brace_label_of};
ghost use Rattle.brace_text.specs.Decoding.{text_of as brace_text_of};
ghost use Rattle.brace.specs.Answer.{encode_outcome as brace_encode_outcome, decode_outcome as brace_decode_outcome};
ghost use Rattle.host_name.specs.Answer.{name_of, text_of_name, encode_outcome as name_encode_outcome, decode_outcome as name_decode_outcome};
ghost use Rattle.nametable_format.specs.Format.{entry_at};
ghost use Rattle.nametable.specs.Answer.{header_outcome, read_outcome, find_outcome, text_in, lone_entry_outcome, judged_entry_outcome, entry_from, entry_text};
ghost use Rattle.nametable_receiver.specs.Receiving.{fresh, received_all, verdict_of};
ghost use Rattle.nametable_write.specs.Writing.{entries_of, write_outcome, table_of};
ghost use Rattle.nametable_short_format.specs.Format.{short_entry_at, long_of};
ghost use Rattle.nametable_short.specs.Answer.{short_read_outcome, short_entry_text, short_find_outcome, to_short, to_long, to_short_outcome, to_long_outcome};
ghost use Rattle.nametable_differences.specs.Report.{report_of, report_outcome};
ghost use Rattle.test_exports.specs.Chunks.{chunks_of};
ghost use Rattle.test_exports.specs.Answer.{numbers_of, entry_numbers_of, answer_after};

use utf16::{PointCount, UnitCount};

// Exports `utf16::to_units`.
#[unsafe(no_mangle)]
pub extern "C" fn test_to_units(points: &[u32], count: usize, units: &mut [u16], answer: &mut [u64])
    ensures units_after { units.new ≡ buffer_after (to_units_outcome points.now count (length units.old)) (to_units (take count points.now)) units.old }
    ensures answer_after { answer.new ≡ answer_after (numbers_of (to_units_outcome points.now count (length units.old))) answer.old }
{
    answers::store_count(utf16::to_units(points, PointCount(count), units), answer);
}

// Exports `utf16::to_points`.
#[unsafe(no_mangle)]
pub extern "C" fn test_to_points(
    units: &[u16],
    count: usize,
    points: &mut [u32],
    answer: &mut [u64],
)
    ensures points_after { points.new ≡ buffer_after (to_points_outcome units.now count (length points.old)) (to_points (take count units.now)) points.old }
    ensures answer_after { answer.new ≡ answer_after (numbers_of (to_points_outcome units.now count (length points.old))) answer.old }
{
    answers::store_count(utf16::to_points(units, UnitCount(count), points), answer);
}

// Exports `altdude::encode`.
#[unsafe(no_mangle)]
pub extern "C" fn test_altdude_encode(text: &[u32], label: &mut [u8], answer: &mut [u64])
    ensures label_after { label.new ≡ buffer_after (altdude_encode_outcome (length label.old) text.now) (altdude_label_of text.now) label.old }
    ensures answer_after { answer.new ≡ answer_after (numbers_of (altdude_encode_outcome (length label.old) text.now)) answer.old }
{
    answers::store_count(altdude::encode(text, label), answer);
}

// Exports `altdude::decode`.
#[unsafe(no_mangle)]
pub extern "C" fn test_altdude_decode(label: &[u8], text: &mut [u32], answer: &mut [u64])
    ensures text_after { text.new ≡ buffer_after (altdude_decode_outcome (length text.old) label.now) (altdude_text_of label.now) text.old }
    ensures answer_after { answer.new ≡ answer_after (numbers_of (altdude_decode_outcome (length text.old) label.now)) answer.old }
{
    answers::store_count(altdude::decode(label, text), answer);
}

// Exports `lace::encode`.
#[unsafe(no_mangle)]
pub extern "C" fn test_lace_encode(text: &[u32], label: &mut [u8], answer: &mut [u64])
    ensures label_after { label.new ≡ buffer_after (lace_encode_outcome is_host_label (length label.old) text.now) (lace_label_of text.now) label.old }
    ensures answer_after { answer.new ≡ answer_after (numbers_of (lace_encode_outcome is_host_label (length label.old) text.now)) answer.old }
{
    answers::store_count(lace::encode(text, label), answer);
}

// Exports `lace::decode`.
#[unsafe(no_mangle)]
pub extern "C" fn test_lace_decode(label: &[u8], text: &mut [u32], answer: &mut [u64])
    ensures text_after { text.new ≡ buffer_after (lace_decode_outcome is_host_label (length text.old) label.now) (lace_text_of label.now) text.old }
    ensures answer_after { answer.new ≡ answer_after (numbers_of (lace_decode_outcome is_host_label (length text.old) label.now)) answer.old }
{
    answers::store_count(lace::decode(label, text), answer);
}

// Exports `altdude::encode_marked`.
#[unsafe(no_mangle)]
pub extern "C" fn test_altdude_encode_marked(
    text: &[u32],
    marks: &[u8],
    label: &mut [u8],
    answer: &mut [u64],
)
    ensures label_after { label.new ≡ buffer_after (altdude_encode_marked_outcome (length label.old) text.now marks.now) (marked marks.now (altdude_label_of text.now)) label.old }
    ensures answer_after { answer.new ≡ answer_after (numbers_of (altdude_encode_marked_outcome (length label.old) text.now marks.now)) answer.old }
{
    answers::store_count(altdude::encode_marked(text, marks, label), answer);
}

// Exports `altdude::decode_marked`.
#[unsafe(no_mangle)]
pub extern "C" fn test_altdude_decode_marked(
    label: &[u8],
    text: &mut [u32],
    marks: &mut [u8],
    answer: &mut [u64],
)
    ensures text_after { text.new ≡ buffer_after (altdude_decode_marked_outcome (length text.old) (length marks.old) label.now) (altdude_text_of label.now) text.old }
    ensures marks_after { marks.new ≡ buffer_after (altdude_decode_marked_outcome (length text.old) (length marks.old) label.now) (altdude_marks_of label.now) marks.old }
    ensures answer_after { answer.new ≡ answer_after (numbers_of (altdude_decode_marked_outcome (length text.old) (length marks.old) label.now)) answer.old }
{
    answers::store_count(altdude::decode_marked(label, text, marks), answer);
}

// Exports `lace::encode_marked`.
#[unsafe(no_mangle)]
pub extern "C" fn test_lace_encode_marked(
    text: &[u32],
    marks: &[u8],
    label: &mut [u8],
    answer: &mut [u64],
)
    ensures label_after { label.new ≡ buffer_after (lace_encode_marked_outcome is_host_label (length label.old) text.now marks.now) (lace_label_of text.now) label.old }
    ensures answer_after { answer.new ≡ answer_after (numbers_of (lace_encode_marked_outcome is_host_label (length label.old) text.now marks.now)) answer.old }
{
    answers::store_count(lace::encode_marked(text, marks, label), answer);
}

// Exports `lace::decode_marked`.
#[unsafe(no_mangle)]
pub extern "C" fn test_lace_decode_marked(
    label: &[u8],
    text: &mut [u32],
    marks: &mut [u8],
    answer: &mut [u64],
)
    ensures text_after { text.new ≡ buffer_after (lace_decode_marked_outcome is_host_label (length text.old) (length marks.old) label.now) (lace_text_of label.now) text.old }
    ensures marks_after { marks.new ≡ buffer_after (lace_decode_marked_outcome is_host_label (length text.old) (length marks.old) label.now) (lace_marks_of label.now) marks.old }
    ensures answer_after { answer.new ≡ answer_after (numbers_of (lace_decode_marked_outcome is_host_label (length text.old) (length marks.old) label.now)) answer.old }
{
    answers::store_count(lace::decode_marked(label, text, marks), answer);
}

// Exports `brace::encode`.
#[unsafe(no_mangle)]
pub extern "C" fn test_brace_encode(units: &[u16], label: &mut [u8], answer: &mut [u64])
    ensures label_after { label.new ≡ buffer_after (brace_encode_outcome (length label.old) units.now) (brace_label_of units.now) label.old }
    ensures answer_after { answer.new ≡ answer_after (numbers_of (brace_encode_outcome (length label.old) units.now)) answer.old }
{
    answers::store_count(brace::encode(units, label), answer);
}

// Exports `brace::decode`.
#[unsafe(no_mangle)]
pub extern "C" fn test_brace_decode(label: &[u8], units: &mut [u16], answer: &mut [u64])
    ensures units_after { units.new ≡ buffer_after (brace_decode_outcome (length units.old) label.now) (brace_text_of label.now) units.old }
    ensures answer_after { answer.new ≡ answer_after (numbers_of (brace_decode_outcome (length units.old) label.now)) answer.old }
{
    answers::store_count(brace::decode(label, units), answer);
}

// Exports `host_name::encode`.
#[unsafe(no_mangle)]
pub extern "C" fn test_name_encode(text: &[u32], name: &mut [u8], answer: &mut [u64])
    ensures name_after { name.new ≡ buffer_after (name_encode_outcome (length name.old) text.now) (name_of text.now) name.old }
    ensures answer_after { answer.new ≡ answer_after (numbers_of (name_encode_outcome (length name.old) text.now)) answer.old }
{
    answers::store_count(host_name::encode(text, name), answer);
}

// Exports `host_name::decode`.
#[unsafe(no_mangle)]
pub extern "C" fn test_name_decode(name: &[u8], text: &mut [u32], answer: &mut [u64])
    ensures text_after { text.new ≡ buffer_after (name_decode_outcome (length text.old) name.now) (text_of_name name.now) text.old }
    ensures answer_after { answer.new ≡ answer_after (numbers_of (name_decode_outcome (length text.old) name.now)) answer.old }
{
    answers::store_count(host_name::decode(name, text), answer);
}

// Exports `nametable::read`.
#[unsafe(no_mangle)]
pub extern "C" fn test_table_read(table: &[u8], answer: &mut [u64])
    ensures { answer.new ≡ answer_after (numbers_of (read_outcome table.now)) answer.old }
{
    answers::store_count(nametable::read(table), answer);
}

// Exports `nametable_receiver`: a used receiver is restarted, takes chunks of these lengths, and is
// asked. A length past the end takes what is left; bytes after the last chunk are not taken.
#[unsafe(no_mangle)]
pub extern "C" fn test_receive(lengths: &[usize], bytes: &[u8], answer: &mut [u64])
    ensures { answer.new ≡ answer_after (numbers_of (verdict_of (received_all fresh (chunks_of lengths.now bytes.now)))) answer.old }
{
    answers::store_count(receiving::in_chunks(lengths, bytes), answer);
}

// Exports `nametable::entry`.
#[unsafe(no_mangle)]
pub extern "C" fn test_table_entry(table: &[u8], index: usize, text: &mut [u32], answer: &mut [u64])
    ensures text_after { text.new ≡ buffer_after (find_outcome table.now index (length text.old)) (entry_text table.now index) text.old }
    ensures answer_after { answer.new ≡ answer_after (entry_numbers_of (entry_from (entry_at table.now index) (find_outcome table.now index (length text.old)))) answer.old }
{
    answers::store_entry(nametable::entry(table, index, text), answer);
}

// Exports `nametable::header`.
#[unsafe(no_mangle)]
pub extern "C" fn test_table_header(kind: u8, table: &[u8], answer: &mut [u64])
    ensures { answer.new ≡ answer_after (numbers_of (header_outcome kind table.now)) answer.old }
{
    answers::store_count(nametable::header(kind, table), answer);
}

// Exports `nametable::lone_entry`.
#[unsafe(no_mangle)]
pub extern "C" fn test_table_lone_entry(
    entry: &[u8],
    least: usize,
    position: usize,
    text: &mut [u32],
    answer: &mut [u64],
)
    ensures text_after { text.new ≡ buffer_after (lone_entry_outcome least position (length text.old) entry.now) (text_in entry.now) text.old }
    ensures answer_after { answer.new ≡ answer_after (entry_numbers_of (entry_from entry.now (lone_entry_outcome least position (length text.old) entry.now))) answer.old }
{
    answers::store_entry(nametable::lone_entry(entry, least, position, text), answer);
}

// Exports `nametable::judged_entry`.
#[unsafe(no_mangle)]
pub extern "C" fn test_table_judged_entry(
    table: &[u8],
    index: usize,
    text: &mut [u32],
    answer: &mut [u64],
)
    ensures text_after { text.new ≡ buffer_after (judged_entry_outcome table.now index (length text.old)) (entry_text table.now index) text.old }
    ensures answer_after { answer.new ≡ answer_after (entry_numbers_of (entry_from (entry_at table.now index) (judged_entry_outcome table.now index (length text.old)))) answer.old }
{
    answers::store_entry(nametable::judged_entry(table, index, text), answer);
}

// Exports `nametable::write`.
#[unsafe(no_mangle)]
pub extern "C" fn test_table_write(
    readers: &[u16],
    schemes: &[u32],
    lengths: &[usize],
    points: &[u32],
    table: &mut [u8],
    answer: &mut [u64],
)
    ensures table_after { table.new ≡ buffer_after (write_outcome (length table.old) readers.now schemes.now lengths.now points.now) (table_of (entries_of readers.now schemes.now lengths.now points.now)) table.old }
    ensures answer_after { answer.new ≡ answer_after (numbers_of (write_outcome (length table.old) readers.now schemes.now lengths.now points.now)) answer.old }
{
    answers::store_count(
        nametable::write(readers, schemes, lengths, points, table),
        answer,
    );
}

// Exports `nametable_short::read`.
#[unsafe(no_mangle)]
pub extern "C" fn test_short_read(table: &[u8], answer: &mut [u64])
    ensures { answer.new ≡ answer_after (numbers_of (short_read_outcome table.now)) answer.old }
{
    answers::store_count(nametable_short::read(table), answer);
}

// Exports `nametable_short::entry`.
#[unsafe(no_mangle)]
pub extern "C" fn test_short_entry(table: &[u8], index: usize, text: &mut [u32], answer: &mut [u64])
    ensures text_after { text.new ≡ buffer_after (short_find_outcome table.now index (length text.old)) (short_entry_text table.now index) text.old }
    ensures answer_after { answer.new ≡ answer_after (entry_numbers_of (entry_from (long_of (short_entry_at table.now index)) (short_find_outcome table.now index (length text.old)))) answer.old }
{
    answers::store_entry(nametable_short::entry(table, index, text), answer);
}

// Exports `nametable_short::to_short`.
#[unsafe(no_mangle)]
pub extern "C" fn test_to_short(table: &[u8], short: &mut [u8], answer: &mut [u64])
    ensures short_after { short.new ≡ buffer_after (to_short_outcome table.now (length short.old)) (to_short table.now) short.old }
    ensures answer_after { answer.new ≡ answer_after (numbers_of (to_short_outcome table.now (length short.old))) answer.old }
{
    answers::store_count(nametable_short::to_short(table, short), answer);
}

// Exports `nametable_short::to_long`.
#[unsafe(no_mangle)]
pub extern "C" fn test_to_long(short: &[u8], table: &mut [u8], answer: &mut [u64])
    ensures table_after { table.new ≡ buffer_after (to_long_outcome short.now (length table.old)) (to_long short.now) table.old }
    ensures answer_after { answer.new ≡ answer_after (numbers_of (to_long_outcome short.now (length table.old))) answer.old }
{
    answers::store_count(nametable_short::to_long(short, table), answer);
}

// Exports `nametable_differences::write_report`.
#[unsafe(no_mangle)]
pub extern "C" fn test_table_diff(left: &[u8], right: &[u8], sheet: &mut [u8], answer: &mut [u64])
    ensures sheet_after { sheet.new ≡ buffer_after (report_outcome left.now right.now (length sheet.old)) (report_of left.now right.now) sheet.old }
    ensures answer_after { answer.new ≡ answer_after (numbers_of (report_outcome left.now right.now (length sheet.old))) answer.old }
{
    answers::store_count(
        nametable_differences::write_report(left, right, sheet),
        answer,
    );
}
