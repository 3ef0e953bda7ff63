// A receiver in a local variable, passed to each of its functions by reference, and a table in chunks.
ghost use Rattle.std.specs.Prelude.{◌≤◌, ◌≡◌, length, take};
ghost use Rattle.nametable_format.specs.Format.{table_length};
ghost use Rattle.nametable.specs.Answer.{table_outcome};
ghost use Rattle.nametable_receiver.specs.Receiving.{state_of, fresh, received, received_all, verdict_of};
ghost use Rattle.test_exports.specs.Chunks.{chunks_of};
ghost use Rattle.test_exports.specs.Internal.{end_of};

use basis::Refusal;
use nametable_format::{ENTRY_LENGTH, HEADER_LENGTH};
use nametable_receiver::Receiver;

// Lends a receiver to `receive`.
fn take_chunk(state: Receiver, chunk: &[u8]) -> Receiver
    ensures { state_of result ≡ received (state_of state) chunk.now }
{
    let mut held = state;
    nametable_receiver::receive(&mut held, chunk);
    held
}

// Lends a receiver to `restart`.
fn start_again(state: Receiver) -> Receiver
    ensures { state_of result ≡ fresh }
{
    let mut held = state;
    nametable_receiver::restart(&mut held);
    held
}

// Lends a receiver to `finish`.
fn ask(state: Receiver) -> Result<usize, Refusal>
    ensures { table_outcome result ≡ verdict_of (state_of state) }
{
    nametable_receiver::finish(&state)
}

// Where a chunk of this length ends that begins at the start, or the end of the bytes if that is first.
fn end_of(start: usize, length: usize, total: usize) -> usize
    requires { start ≤ total }
    ensures { (result ≡ end_of start length total) × (start ≤ result) × (result ≤ total) }
{
    start + length.min(total - start)
}

// A receiver that was used: it took the first bytes, up to a header and an entry.
fn begun(bytes: &[u8]) -> Receiver
    ensures { state_of result ≡ received fresh (take (end_of 0 (table_length 1) (length bytes.now)) bytes.now) }
{
    let end = end_of(0, HEADER_LENGTH + ENTRY_LENGTH, bytes.len());
    take_chunk(Receiver::new(), &bytes[..end])
}

// Starts a used receiver again, so that `restart` is run too, has it take the chunks of these lengths,
// and answers the verdict.
pub(crate) fn in_chunks(lengths: &[usize], bytes: &[u8]) -> Result<usize, Refusal>
    ensures { table_outcome result ≡ verdict_of (received_all fresh (chunks_of lengths.now bytes.now)) }
{
    let mut state = start_again(begun(bytes));
    let mut start = 0;
    for &length in lengths {
        let end = end_of(start, length, bytes.len());
        state = take_chunk(state, &bytes[start..end]);
        start = end;
    }
    ask(state)
}
