// Writing: the labels of the parts of a text, with dots between.
ghost use Rattle.std.specs.Prelude.{◌≡◌, true, ◌++◌, ℕ, ◌+◌, ◌≤◌, length, take, drop};
ghost use Rattle.std.proofs.lemmas.List.Edits.{sets};
ghost use Rattle.basis.specs.Outcome.{done, bytes_outcome, and_then};
ghost use Rattle.ascii.specs.Ldh.{is_host_label};
ghost use Rattle.host_name.specs.Parts.{parts_of};
ghost use Rattle.host_name.specs.Answer.{part_label, part_written, in_turn, name_of};
ghost use Rattle.host_name.specs.Internal.{capped, dot_before};

use crate::DOT;
use basis::{ByteCount, ErrorCode, Refusal};

// Copies a part that is a host label to the front of a label.
fn copy_part(part: &[u32], label: &mut [u8])
    requires part_value { is_host_label part.now ≡ true }
    requires part_in_bounds { length part.now ≤ length label.old }
    ensures { label.new ≡ part.now ++ drop (length part.now) label.old }
{
    for (i, &point) in part.iter().enumerate() {
        label[i] = point as u8;
    }
}

// Writes the label of one part. LACE refuses an empty one.
fn write_label(part: &[u32], label: &mut [u8]) -> Result<ByteCount, Refusal>
    requires { 63 ≤ length label.old }
    ensures result_value { bytes_outcome result ≡ part_written part.now }
    ensures by_index { (n : ℕ) → part_written part.now ≡ done n → label.new ≡ part_label part.now ++ drop n label.old }
{
    if !ascii::text_is_host_label(part) {
        return lace::encode(part, label);
    }
    let n = part.len();
    copy_part(part, label);
    if lace_format::has_prefix(&label[..n]) {
        return Err(ErrorCode::AmbiguousPart.at(0));
    }
    Ok(ByteCount(n))
}

// So many bytes, counted up to 254: more than a name may have.
fn capped_count(count: usize) -> usize
    ensures { result ≡ capped count }
{
    if 253 < count { 254 } else { count }
}

// Writes the label of the part of this index behind so many bytes, and answers how many there are then,
// counted up to 254.
fn write_part(
    part: &[u32],
    index: usize,
    made: &mut [u8; 317],
    at: usize,
) -> Result<ByteCount, Refusal>
    requires { at ≤ 254 }
    ensures result_value { bytes_outcome result ≡ and_then (λ _. index) (part_written part.now) (done (capped (at + length (part_label part.now)))) }
    ensures by_index { (n : ℕ) → part_written part.now ≡ done n → made.new ≡ sets made.old at (part_label part.now) }
{
    match write_label(part, &mut made[at..]) {
        Err(refusal) => Err(refusal.code.at(index)),
        Ok(count) => Ok(ByteCount(capped_count(at + count.0))),
    }
}

// Writes the dot before the label of the part of this index, and answers how many bytes there are then, counted up to 254.
fn write_dot(index: usize, made: &mut [u8; 317], at: usize) -> usize
    requires { at ≤ 254 }
    ensures value { result ≡ capped (at + length (dot_before index)) }
    ensures made_after { made.new ≡ sets made.old at (dot_before index) }
{
    if index == 0 {
        return at;
    }
    made[at] = DOT;
    capped_count(at + 1)
}

// Writes the labels of all parts with dots between, and answers how many bytes they have, counted up
// to 254. Past 253 only that is kept.
pub(crate) fn write_parts(text: &[u32], made: &mut [u8; 317]) -> Result<ByteCount, Refusal>
    ensures result_value { bytes_outcome result ≡ in_turn part_written 0 (parts_of text.now) (done (capped (length (name_of text.now)))) }
    ensures by_index { (n : ℕ) → in_turn part_written 0 (parts_of text.now) (done (capped (length (name_of text.now)))) ≡ done n → n ≤ 253 → take n made.new ≡ name_of text.now }
{
    let mut at = 0;
    for (index, part) in text.split(|&point| point == DOT as u32).enumerate() {
        at = write_dot(index, made, at);
        let count = write_part(part, index, made, at)?;
        at = count.0;
    }
    Ok(ByteCount(at))
}
