// One byte more, by value, and the header's verdict.
ghost use Rattle.std.specs.Prelude.{◌≡◌, ◌≤◌, ◌<◌, take};
ghost use Rattle.nametable_format.specs.Format.{header_kind, header_length, label_capacity};
ghost use Rattle.nametable.specs.Answer.{table_outcome, header_outcome, entry_judged};
ghost use Rattle.nametable_receiver.specs.Receiving.{most_bytes, last_index, state_of, headed, stored, ended, judged_with, stepped};

use crate::Receiver;
use basis::Refusal;
use nametable::TEXT_CAPACITY;
use nametable_format::{ENTRY_LENGTH, HEADER_KIND, HEADER_LENGTH, LONGEST_TABLE, READER_START};

// The verdict on a header of which so many bytes have come.
pub(crate) fn announced(header: &[u8], came: usize) -> Result<usize, Refusal>
    ensures { table_outcome result ≡ header_outcome header_kind (take came header.now) }
{
    if came < header.len() {
        return nametable::header(HEADER_KIND, &header[..came]);
    }
    nametable::header(HEADER_KIND, header)
}

// The verdict on the entries so far and on the next, which is at this index; an earlier refusal stays.
fn judged_with(
    earlier: Result<usize, Refusal>,
    least: usize,
    entry: [u8; ENTRY_LENGTH],
    index: usize,
) -> Result<usize, Refusal>
    requires { index < most_bytes }
    ensures { table_outcome result ≡ judged_with (table_outcome earlier) (entry_judged 1 label_capacity least entry) index }
{
    earlier?;
    let mut text = [0u32; TEXT_CAPACITY];
    nametable::lone_entry(&entry, least, index, &mut text)?;
    Ok(index + 1)
}

// A byte of the header.
fn header_byte(state: Receiver, byte: u8) -> Receiver
    requires { state.total < header_length }
    ensures { state_of result ≡ headed (state_of state) byte }
{
    let total = state.total;
    let mut next = state;
    next.header[total] = byte;
    next.total = total + 1;
    next
}

// A byte of an entry that is not its last.
fn entry_byte(state: Receiver, byte: u8) -> Receiver
    requires { (state.total < most_bytes) × (state.filled < last_index) }
    ensures { state_of result ≡ stored (state_of state) byte }
{
    let filled = state.filled;
    let mut next = state;
    next.current[filled] = byte;
    next.filled = filled + 1;
    next.total = state.total + 1;
    next
}

// The last byte of an entry: the entry is judged.
fn last_byte(state: Receiver, byte: u8) -> Receiver
    requires { (header_length ≤ state.total) × (state.total < most_bytes) }
    ensures { state_of result ≡ ended (state_of state) byte }
{
    let header = state.header;
    let total = state.total;
    let earlier = state.judged;
    let mut current = state.current;
    current[ENTRY_LENGTH - 1] = byte;
    let index = (total - HEADER_LENGTH) / ENTRY_LENGTH;
    let judged = judged_with(earlier, state.least, current, index);
    let least = nametable_format::number_at(&current, READER_START) + 1;
    Receiver {
        header,
        current,
        filled: 0,
        total: total + 1,
        least,
        judged,
    }
}

// The state after a byte.
#[tactic(auto, using(crate::proofs::StepLaws::first_steps))]
pub(crate) fn after_byte(state: Receiver, byte: u8) -> Receiver
    ensures { state_of result ≡ stepped (state_of state) byte }
{
    let total = state.total;
    if LONGEST_TABLE < total {
        return state;
    }
    if total < HEADER_LENGTH {
        return header_byte(state, byte);
    }
    if state.filled < ENTRY_LENGTH - 1 {
        return entry_byte(state, byte);
    }
    last_byte(state, byte)
}
