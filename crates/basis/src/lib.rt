// The numbered errors, the refusal that every function answers with, and a count of bytes. The shared definitions are in specs/,
// the laws on them in proofs/.
#![tactic(auto)]

ghost use Rattle.std.specs.Prelude.{◌≡◌};
ghost use Rattle.basis.specs.Outcome.{number_of, count_of, bytes_outcome};

// The causes of refusal of the scope paper and of its change requests, in their order; `number_of` of specs/Outcome.antt gives each its number.
#[derive(Clone, Copy)]
pub enum ErrorCode {
    Capacity,
    Empty,
    TooLong,
    NotAPoint,
    EdgeHyphen,
    HostLabel,
    OutsideAlphabet,
    NoPrefix,
    NotWellFormed,
    UnpairedSurrogate,
    UnknownScheme,
    OddByteCount,
    Truncated,
    Malformed,
    BadMark,
    AmbiguousPart,
}

// Why a function refused: the cause, and where it was found.
#[derive(Clone, Copy)]
pub struct Refusal {
    pub code: ErrorCode,
    pub position: usize,
}

impl ErrorCode {
    // The refusal for this cause, found at a position.
    pub fn at(self, position: usize) -> Refusal
        ensures { result ≡ record { code = self; position = position } }
    {
        Refusal {
            code: self,
            position,
        }
    }
}

// The number of an error.
impl From<ErrorCode> for u32 {
    ghost from_gives = { λ code number. number ≡ number_of code };

    fn from(code: ErrorCode) -> u32 {
        match code {
            ErrorCode::Capacity => 1,
            ErrorCode::Empty => 2,
            ErrorCode::TooLong => 3,
            ErrorCode::NotAPoint => 4,
            ErrorCode::EdgeHyphen => 5,
            ErrorCode::HostLabel => 6,
            ErrorCode::OutsideAlphabet => 7,
            ErrorCode::NoPrefix => 8,
            ErrorCode::NotWellFormed => 9,
            ErrorCode::UnpairedSurrogate => 10,
            ErrorCode::UnknownScheme => 11,
            ErrorCode::OddByteCount => 12,
            ErrorCode::Truncated => 13,
            ErrorCode::Malformed => 14,
            ErrorCode::BadMark => 15,
            ErrorCode::AmbiguousPart => 16,
        }
    }
}

// How many bytes.
#[derive(Clone, Copy)]
pub struct ByteCount(pub usize);

// How many bytes an answer says were written; a refusal has written none.
pub fn bytes_written(answer: Result<ByteCount, Refusal>) -> usize
    ensures { result ≡ count_of (bytes_outcome answer) }
{
    answer.map_or(0, |count| count.0)
}
