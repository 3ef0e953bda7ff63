// The receiver of a name table that arrives in chunks: a state that the caller holds, changed in
// place by each chunk. Asked when the table is over, it answers as reading the table at once.
#![tactic(auto)]

mod steps;

ghost use Rattle.std.specs.Prelude.{◌≡◌};
ghost use Rattle.nametable.specs.Answer.{table_outcome};
ghost use Rattle.nametable_receiver.specs.Receiving.{state_of, fresh, received, verdict_of};

use basis::{ErrorCode, Refusal};
use nametable_format::{ENTRY_LENGTH, HEADER_LENGTH};

// The bytes of the header, those of the entry that is being received and how many of them have come,
// how many bytes have come in all, counted up to 33,504, the least reader number that this entry may
// have, and the verdict on the entries before it: how many, or the first refusal. The entry's bytes are
// an array with their number beside it, since there is no heap.
#[derive(Clone, Copy)]
pub struct Receiver {
    pub header: [u8; HEADER_LENGTH],
    pub current: [u8; ENTRY_LENGTH],
    pub filled: usize,
    pub total: usize,
    pub least: usize,
    pub judged: Result<usize, Refusal>,
}

impl Receiver {
    // A fresh start.
    pub fn new() -> Receiver
        ensures { state_of result ≡ fresh }
    {
        Receiver {
            header: [0; HEADER_LENGTH],
            current: [0; ENTRY_LENGTH],
            filled: 0,
            total: 0,
            least: 0,
            judged: Ok(0),
        }
    }
}

// The state after a chunk.
pub fn after_chunk(state: Receiver, chunk: &[u8]) -> Receiver
    ensures { state_of result ≡ received (state_of state) chunk.now }
{
    let mut next = state;
    for &byte in chunk {
        next = steps::after_byte(next, byte);
    }
    next
}

// The verdict if the table is over: the header's, the length's, then that on the entries.
pub fn verdict(state: Receiver) -> Result<usize, Refusal>
    ensures { table_outcome result ≡ verdict_of (state_of state) }
{
    let header = state.header;
    let total = state.total;
    let count = steps::announced(&header, total)?;
    let length = HEADER_LENGTH + ENTRY_LENGTH * count;
    if total < length {
        return Err(ErrorCode::Truncated.at(0));
    }
    if length < total {
        return Err(ErrorCode::Malformed.at(0));
    }
    state.judged
}

// Takes a chunk, of any length.
pub fn receive(state: &mut Receiver, chunk: &[u8])
    ensures { state_of state.new ≡ received (state_of state.old) chunk.now }
{
    *state = after_chunk(*state, chunk);
}

// The verdict if the table is over. The state stays as it is.
pub fn finish(state: &Receiver) -> Result<usize, Refusal>
    ensures { table_outcome result ≡ verdict_of (state_of state.now) }
{
    verdict(*state)
}

// A fresh start in place.
pub fn restart(state: &mut Receiver)
    ensures { state_of state.new ≡ fresh }
{
    *state = Receiver::new();
}
