// The sizes of the name table's format, as `specs/Format.antt` names them, and a number that is stored in it.
#![tactic(auto)]

ghost use Rattle.std.specs.Prelude.{◌≡◌, ◌<◌};
ghost use Rattle.nametable_format.specs.Format.{number_at};

pub const HEADER_KIND: u8 = 0x48;

pub const HEADER_LENGTH: usize = 3;

pub const COUNT_START: usize = 1;

pub const MOST_ENTRIES: usize = 500;

pub const ENTRY_LENGTH: usize = 67;

// The bytes of a table of the most entries.
pub const LONGEST_TABLE: usize = 33503;

pub const READER_START: usize = 1;

pub const LENGTH_START: usize = 3;

pub const LABEL_START: usize = 4;

pub const LABEL_CAPACITY: usize = 63;

// The number of the two bytes at an index, the high byte first; a byte past the end counts as 0.
pub fn number_at(bytes: &[u8], i: usize) -> usize
    ensures { (result ≡ number_at bytes.now i) × (result < 65536) }
{
    if bytes.len() <= i {
        return 0;
    }
    let high = bytes[i] as usize * 256;
    if bytes.len() <= i + 1 {
        return high;
    }
    high + bytes[i + 1] as usize
}
