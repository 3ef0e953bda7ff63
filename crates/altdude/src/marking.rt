// Marks: the last characters of groups as capitals.
ghost use Rattle.std.specs.Prelude.{◌+◌, ◌≤◌, ◌<◌, ◌≡◌, [], ◌++◌, length, drop};
ghost use Rattle.basis.specs.Internal.{Stored};
ghost use Rattle.altdude.specs.Marks.{ends_item, marked_byte, marked, shows_mark, marks_of};

// Whether the byte ends an item: a hyphen, or the last character of a group.
fn ends_item(byte: u8) -> bool
    ensures { result ≡ ends_item byte }
{
    byte == 45 || alphabet::altdude_look_up(byte).value < 16
}

// The byte with the mark of its item.
fn marked_byte(mark: u8, byte: u8) -> u8
    ensures { result ≡ marked_byte mark byte }
{
    if !ends_item(byte) {
        return byte;
    }
    if mark == 1 {
        return ascii::capital_form(byte);
    }
    byte
}

// Makes the last byte of each item with the mark 1 a capital; it ends where no mark is left.
pub(crate) fn raise_marked(marks: &[u8], label: &mut [u8])
    ensures { label.new ≡ marked marks.now label.old }
{
    let mut next = 0;
    for byte in label.iter_mut() {
        if marks.len() <= next {
            return;
        }
        let ended = usize::from(ends_item(*byte));
        *byte = marked_byte(marks[next], *byte);
        next += ended;
    }
}

// Stores the mark that a byte shows, if it shows one, at an index, and answers the index after it.
fn put_mark(byte: u8, marks: &mut [u8], at: usize) -> usize
    requires { at < length marks.old }
    ensures { Stored marks.old at (shows_mark byte []) marks.new result }
{
    if !ends_item(byte) {
        return at;
    }
    marks[at] = u8::from(alphabet::altdude_look_up(byte).capital);
    at + 1
}

// Stores the marks of a label.
pub(crate) fn put_marks(label: &[u8], marks: &mut [u8])
    requires { length label.now ≤ length marks.old }
    ensures { marks.new ≡ marks_of label.now ++ drop (length (marks_of label.now)) marks.old }
{
    let mut at = 0;
    for &byte in label {
        at = put_mark(byte, marks, at);
    }
}
