// A function's answer, stored as five numbers: code (0 when done), position, count, reader number
// and scheme number.
ghost use Rattle.std.specs.Prelude.{◌≡◌, ℕ, [], ◌∷◌};
ghost use Rattle.basis.specs.Outcome.{number_of, outcome_by};
ghost use Rattle.nametable.specs.Answer.{entry_outcome};
ghost use Rattle.test_exports.specs.Answer.{numbers_of, entry_numbers_of, answer_after};

use basis::{ByteCount, Refusal};
use nametable::ReadEntry;
use utf16::{PointCount, UnitCount};

// How many of something, as a number.
pub(crate) trait Count: Copy {
    ghost number: { Self → ℕ };

    fn number(self) -> usize
        ensures { result ≡ number self };
}

impl Count for ByteCount {
    ghost number = { λ count. count.0 };

    fn number(self) -> usize {
        self.0
    }
}

impl Count for PointCount {
    ghost number = { λ count. count.0 };

    fn number(self) -> usize {
        self.0
    }
}

impl Count for UnitCount {
    ghost number = { λ count. count.0 };

    fn number(self) -> usize {
        self.0
    }
}

impl Count for usize {
    ghost number = { λ count. count };

    fn number(self) -> usize {
        self
    }
}

// Stores the five numbers, if the row has five elements or more.
fn store(code: u32, position: usize, count: usize, reader: u16, scheme: u32, row: &mut [u64])
    ensures { row.new ≡ answer_after (code ∷ position ∷ count ∷ reader ∷ scheme ∷ []) row.old }
{
    if row.len() < 5 {
        return;
    }
    row[0] = code as u64;
    row[1] = position as u64;
    row[2] = count as u64;
    row[3] = reader as u64;
    row[4] = scheme as u64;
}

// Stores an error.
fn store_error(refusal: Refusal, row: &mut [u64])
    ensures { row.new ≡ answer_after (number_of refusal.code ∷ refusal.position ∷ 0 ∷ 0 ∷ 0 ∷ []) row.old }
{
    store(u32::from(refusal.code), refusal.position, 0, 0, 0, row);
}

// Stores an answer that counts something.
pub(crate) fn store_count<T: Count>(answer: Result<T, Refusal>, row: &mut [u64])
    ensures { row.new ≡ answer_after (numbers_of (outcome_by T.number answer)) row.old }
{
    match answer {
        Ok(count) => store(0, 0, count.number(), 0, 0, row),
        Err(refusal) => store_error(refusal, row),
    }
}

// Stores an answer with an entry.
pub(crate) fn store_entry(answer: Result<ReadEntry, Refusal>, row: &mut [u64])
    ensures { row.new ≡ answer_after (entry_numbers_of (entry_outcome answer)) row.old }
{
    match answer {
        Ok(entry) => store(
            0,
            0,
            entry.count.0,
            entry.reader,
            scheme::number(entry.scheme),
            row,
        ),
        Err(refusal) => store_error(refusal, row),
    }
}
