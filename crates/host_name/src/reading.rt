// Reading: the texts of the labels of a name, with dots between.
ghost use Rattle.std.specs.Prelude.{◌≡◌, ◌++◌, ℕ, ◌+◌, ◌≤◌, length, take, drop};
ghost use Rattle.std.proofs.lemmas.List.Edits.{sets};
ghost use Rattle.basis.specs.Outcome.{done, and_then};
ghost use Rattle.utf16.specs.Answer.{points_outcome};
ghost use Rattle.lace_decoding.specs.Decoding.{text_of};
ghost use Rattle.host_name.specs.Parts.{parts_of};
ghost use Rattle.host_name.specs.Answer.{part_text, lace_read, plain_read, part_read, in_turn, text_of_name};
ghost use Rattle.host_name.specs.Internal.{dot_before};

use crate::DOT;
use basis::{ErrorCode, Refusal};
use utf16::PointCount;

// Copies a label to the front of a text.
fn copy_label(label: &[u8], text: &mut [u32])
    requires { length label.now ≤ length text.old }
    ensures { text.new ≡ label.now ++ drop (length label.now) text.old }
{
    for (i, &byte) in label.iter().enumerate() {
        text[i] = byte as u32;
    }
}

// Reads a label that does not begin lq--: a host label, which is its own text.
// The room of 63 stays a clause of the three that read a label and of `write_label`: a struct around a lent slice, made once, is no plainer.
fn read_plain(label: &[u8], text: &mut [u32]) -> Result<PointCount, Refusal>
    requires { 63 ≤ length text.old }
    ensures result_value { points_outcome result ≡ plain_read label.now }
    ensures by_index { (n : ℕ) → plain_read label.now ≡ done n → text.new ≡ label.now ++ drop n text.old }
{
    let n = label.len();
    if 63 < n {
        return Err(ErrorCode::TooLong.at(0));
    }
    copy_label(label, text);
    if !ascii::text_all_ldh(&text[..n]) {
        return Err(ErrorCode::OutsideAlphabet.at(0));
    }
    if ascii::label_has_edge_hyphen(label) {
        return Err(ErrorCode::EdgeHyphen.at(0));
    }
    Ok(PointCount(n))
}

// Reads a label as LACE, with no dot in its text.
fn read_lace(label: &[u8], text: &mut [u32]) -> Result<PointCount, Refusal>
    requires { 63 ≤ length text.old }
    ensures result_value { points_outcome result ≡ lace_read label.now }
    ensures by_index { (n : ℕ) → lace_read label.now ≡ done n → text.new ≡ text_of label.now ++ drop n text.old }
{
    let count = lace::decode(label, text)?;
    let n = count.0;
    if text[..n].contains(&(DOT as u32)) {
        return Err(ErrorCode::AmbiguousPart.at(0));
    }
    Ok(count)
}

// Reads one label.
fn read_label(label: &[u8], text: &mut [u32]) -> Result<PointCount, Refusal>
    requires { 63 ≤ length text.old }
    ensures result_value { points_outcome result ≡ part_read label.now }
    ensures by_index { (n : ℕ) → part_read label.now ≡ done n → text.new ≡ part_text label.now ++ drop n text.old }
{
    if label.len() == 0 {
        return Err(ErrorCode::Empty.at(0));
    }
    let begins = lace_format::has_prefix(label);
    if begins {
        return read_lace(label, text);
    }
    read_plain(label, text)
}

// Reads the label of this index behind so many points, and answers how many there are then.
fn read_part(
    label: &[u8],
    index: usize,
    made: &mut [u32; 316],
    at: usize,
) -> Result<PointCount, Refusal>
    requires { at ≤ 253 }
    ensures result_value { points_outcome result ≡ and_then (λ _. index) (part_read label.now) (done (at + length (part_text label.now))) }
    ensures by_index { (n : ℕ) → part_read label.now ≡ done n → made.new ≡ sets made.old at (part_text label.now) }
{
    match read_label(label, &mut made[at..]) {
        Err(refusal) => Err(refusal.code.at(index)),
        Ok(count) => Ok(PointCount(at + count.0)),
    }
}

// Stores the dot before the text of the label of this index, and answers how many points there are then.
fn put_dot(index: usize, made: &mut [u32; 316], at: usize) -> usize
    requires { at ≤ 253 }
    ensures value { result ≡ at + length (dot_before index) }
    ensures made_after { made.new ≡ sets made.old at (dot_before index) }
{
    if index == 0 {
        return at;
    }
    made[at] = DOT as u32;
    at + 1
}

// Reads all labels, with dots between their texts, and answers how many points these have. It stays apart from `write_parts`:
// one function for both would take a closure, two element types and a switch for the count that stops at 254, and is no plainer.
pub(crate) fn read_parts(name: &[u8], made: &mut [u32; 316]) -> Result<PointCount, Refusal>
    requires { length name.now ≤ 253 }
    ensures result_value { points_outcome result ≡ in_turn part_read 0 (parts_of name.now) (done (length (text_of_name name.now))) }
    ensures by_index { (n : ℕ) → in_turn part_read 0 (parts_of name.now) (done (length (text_of_name name.now))) ≡ done n → take n made.new ≡ text_of_name name.now }
{
    let mut at = 0;
    for (index, part) in name.split(|&byte| byte == DOT).enumerate() {
        at = put_dot(index, made, at);
        let count = read_part(part, index, made, at)?;
        at = count.0;
    }
    Ok(PointCount(at))
}
