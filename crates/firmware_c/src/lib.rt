// The C interface's two symbols: each passes on to the function of `firmware` that has its name and its clauses.
#![tactic(auto)]

ghost use Rattle.std.specs.Prelude.{◌≡◌, length};
ghost use Rattle.basis.specs.Outcome.{buffer_after};
ghost use Rattle.firmware.specs.Answer.{answer_of, write_outcome, written_label, read_outcome, read_text};

// Writes the label of a text of big-endian UTF-16 bytes.
#[unsafe(no_mangle)]
pub extern "C" fn distelhut_write(scheme: u32, text: &[u8], label: &mut [u8]) -> u32
    ensures value { result ≡ answer_of (write_outcome scheme (length label.old) text.now) }
    ensures label_after { label.new ≡ buffer_after (write_outcome scheme (length label.old) text.now) (written_label scheme text.now) label.old }
{
    firmware::distelhut_write(scheme, text, label)
}

// Reads the text of a label as big-endian UTF-16 bytes.
#[unsafe(no_mangle)]
pub extern "C" fn distelhut_read(scheme: u32, label: &[u8], text: &mut [u8]) -> u32
    ensures value { result ≡ answer_of (read_outcome scheme (length text.old) label.now) }
    ensures text_after { text.new ≡ buffer_after (read_outcome scheme (length text.old) label.now) (read_text scheme label.now) text.old }
{
    firmware::distelhut_read(scheme, label, text)
}
