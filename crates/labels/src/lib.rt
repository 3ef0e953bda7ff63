// The first tests of every scheme: on a text that is to be written, with marks or without, and on a label that is to be read.
#![tactic(auto)]

ghost use Rattle.std.specs.Prelude.{◌≡◌, length, eqb, ltb};
ghost use Rattle.basis.specs.Outcome.{Outcome, refused_if, and_then};
ghost use Rattle.labels.specs.Tests.{text_tests, label_tests};
ghost use Rattle.labels.specs.Marks.{may_mark, first_bad_mark, marks_tests};
ghost use Rattle.labels.specs.Answer.{check_outcome};

use basis::{ErrorCode, Refusal};

// Tests the number of points or bytes that are to be coded, and the room for the result: 1, 2.
#[tactic(auto, using(crate::proofs::FirstTests::sizes_rules), unfolding(basis::specs::Outcome::and_then, basis::specs::Outcome::outcome_by))]
fn check_sizes(length: usize, capacity: usize) -> Result<(), Refusal>
    ensures { (next : Outcome) → and_then (λ p. p) (check_outcome result) next ≡ refused_if (ltb capacity 63) 1 0 (refused_if (eqb length 0) 2 0 next) }
{
    if capacity < 63 {
        return Err(ErrorCode::Capacity.at(0));
    }
    if length == 0 {
        return Err(ErrorCode::Empty.at(0));
    }
    Ok(())
}

// Tests a text that is to be written into so many bytes: 1, 2, 4.
pub fn check_text(text: &[u32], capacity: usize) -> Result<(), Refusal>
    ensures { (next : Outcome) → and_then (λ p. p) (check_outcome result) next ≡ text_tests capacity text.now next }
{
    check_sizes(text.len(), capacity)?;
    let bad = surrogates::points::first_not_point(text);
    if bad < text.len() {
        return Err(ErrorCode::NotAPoint.at(bad));
    }
    Ok(())
}

// Whether the mark may be on the point, under a scheme that keeps marks or one that does not.
#[tactic(auto, unfolding(crate::specs::Marks::may_mark, basis::specs::Tests::both))]
fn may_mark(keeps: bool, point: u32, mark: u8) -> bool
    ensures { result ≡ may_mark keeps point mark }
{
    if mark == 0 {
        return true;
    }
    if !keeps {
        return false;
    }
    if mark != 1 {
        return false;
    }
    point != 45
}

// The index of the first point with a mark that may not be on it, or the number of points.
fn first_bad_mark(keeps: bool, text: &[u32], marks: &[u8]) -> usize
    requires { length marks.now ≡ length text.now }
    ensures { result ≡ first_bad_mark keeps text.now marks.now }
{
    text.iter()
        .zip(marks)
        .position(|(&point, &mark)| !may_mark(keeps, point, mark))
        .unwrap_or(text.len())
}

// Tests a text and its marks that are to be written into so many bytes: 1, 2, 4, 15.
pub fn check_marked(keeps: bool, text: &[u32], marks: &[u8], capacity: usize) -> Result<(), Refusal>
    ensures { (next : Outcome) → and_then (λ p. p) (check_outcome result) next ≡ text_tests capacity text.now (marks_tests keeps text.now marks.now next) }
{
    check_text(text, capacity)?;
    if marks.len() != text.len() {
        return Err(ErrorCode::BadMark.at(0));
    }
    let wrong = first_bad_mark(keeps, text, marks);
    if wrong < text.len() {
        return Err(ErrorCode::BadMark.at(wrong));
    }
    Ok(())
}

// Tests a label of so many bytes that is to be read into so many points: 1, 2, 3.
#[tactic(auto, using(crate::proofs::FirstTests::label_rules), unfolding(basis::specs::Outcome::and_then, basis::specs::Outcome::outcome_by, crate::specs::Tests::label_tests))]
pub fn check_label(length: usize, capacity: usize) -> Result<(), Refusal>
    ensures { (next : Outcome) → and_then (λ p. p) (check_outcome result) next ≡ label_tests capacity length next }
{
    check_sizes(length, capacity)?;
    if 63 < length {
        return Err(ErrorCode::TooLong.at(0));
    }
    Ok(())
}
