// The C interface: two functions on a scheme number and byte slices, answering one number. `firmware_c` exports them.
#![tactic(auto)]

mod read;
mod write;

ghost use Rattle.std.specs.Prelude.{◌≡◌, ◌≤◌, length};
ghost use Rattle.basis.specs.Outcome.{count_of, bytes_outcome, buffer_after};
ghost use Rattle.firmware.specs.Answer.{answer_of, write_outcome, written_label, read_outcome, read_text};

use basis::{ByteCount, Refusal};

// The bytes that a label has at most, which is also the points that its text has at most.
pub const LABEL_BYTES: usize = 63;

// The bytes that a text has at most.
pub const TEXT_BYTES: usize = 252;

// The points that so many bytes make at most.
pub const TEXT_POINTS: usize = 126;

// What is added to the number of an error.
pub const REFUSED: u32 = 1000;

// The one number of an answer: the bytes written, or 1000 plus the error's number.
fn answer_number(answer: Result<ByteCount, Refusal>) -> u32
    requires { count_of (bytes_outcome answer) ≤ 252 }
    ensures { result ≡ answer_of (bytes_outcome answer) }
{
    // Kept as one number: the C interface answers so.
    match answer {
        Ok(count) => count.0 as u32,
        Err(refusal) => REFUSED + u32::from(refusal.code),
    }
}

// Writes the label of a text of big-endian UTF-16 bytes.
pub fn distelhut_write(scheme: u32, text: &[u8], label: &mut [u8]) -> u32
    ensures value { result ≡ answer_of (write_outcome scheme (length label.old) text.now) }
    ensures label_after { label.new ≡ buffer_after (write_outcome scheme (length label.old) text.now) (written_label scheme text.now) label.old }
{
    answer_number(write::write(scheme, text, label))
}

// Reads the text of a label as big-endian UTF-16 bytes.
pub fn distelhut_read(scheme: u32, label: &[u8], text: &mut [u8]) -> u32
    ensures value { result ≡ answer_of (read_outcome scheme (length text.old) label.now) }
    ensures text_after { text.new ≡ buffer_after (read_outcome scheme (length text.old) label.now) (read_text scheme label.now) text.old }
{
    answer_number(read::read(scheme, label, text))
}
