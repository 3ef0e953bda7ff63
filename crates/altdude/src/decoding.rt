// Reading a label symbol by symbol.
ghost use Rattle.std.specs.Prelude.{◌≡◌, true, ◌++◌, map, ◌+◌, ◌≤◌, ◌<◌, length, drop};
ghost use Rattle.basis.specs.Internal.{Stored};
ghost use Rattle.altdude.specs.Symbols.{symbol_of};
ghost use Rattle.altdude.specs.Decoding.{is_readable, text_of};
ghost use Rattle.altdude.specs.Internal.{Small, StepMeans, adds_after};

use crate::symbols;
use surrogates::points;

// The state of the reader between two symbols: the remembered number, and the open group's value, 0 where no group is open.
// Kept as a number: `is_readable` and `text_from` (specs/Decoding.antt) speak of it so, and both sums below begin at 0 where no group is open.
#[derive(Clone, Copy)]
struct State {
    remembered: u32,
    pending: u32,
}

// The state before the first symbol.
const START: State = State {
    remembered: 96,
    pending: 0,
};

impl State {
    // The state after the last symbol of a group: its XOR must be a point and not a hyphen. None where no row goes on so.
    fn close_group(self, symbol: u32) -> Option<State>
        requires { Small self × (symbol < 16) }
        ensures { StepMeans self symbol result }
    {
        let point = self.remembered ^ (self.pending * 16 + symbol);
        if !points::is_point(point) {
            return None;
        }
        if point == 45 {
            return None;
        }
        Some(State {
            remembered: point,
            pending: 0,
        })
    }

    // The state after one symbol, or none where no row goes on so. A value of more than 21 bits never gives a point again, so no
    // sum wraps however long a group is.
    fn advance(self, symbol: u32) -> Option<State>
        requires { Small self × (symbol ≤ 45) }
        ensures { StepMeans self symbol result }
    {
        if symbol < 16 {
            return self.close_group(symbol);
        }
        if symbol == 45 {
            if self.pending == 0 {
                return Some(self);
            }
            return None;
        }
        if 31 < symbol {
            return None;
        }
        let value = self.pending * 16 + (symbol - 16);
        if value == 0 {
            return None;
        }
        if 0x1f_ffff < value {
            return None;
        }
        Some(State {
            remembered: self.remembered,
            pending: value,
        })
    }
}

// Whether the label's symbols can be read to the end.
pub(crate) fn is_readable(label: &[u8]) -> bool
    ensures { result ≡ is_readable 96 0 (map symbol_of label.now) }
{
    let mut state = START;
    for &byte in label {
        let symbol = symbols::symbol_of(byte) as u32;
        let Some(next) = state.advance(symbol) else {
            return false;
        };
        state = next;
    }
    state.pending == 0
}

// Stores what a symbol adds to the text, where the remembered number is the one after it, and answers the index after it.
fn put_symbol(symbol: u32, remembered: u32, text: &mut [u32], at: usize) -> usize
    requires { at < length text.old }
    ensures { Stored text.old at (adds_after symbol remembered) text.new result }
{
    if symbol < 16 {
        text[at] = remembered;
        return at + 1;
    }
    if symbol == 45 {
        text[at] = 45;
        return at + 1;
    }
    at
}

// Stores the text of a label that can be read, and answers the number of its points.
pub(crate) fn put_text(label: &[u8], text: &mut [u32]) -> usize
    requires label_value { is_readable 96 0 (map symbol_of label.now) ≡ true }
    requires label_in_bounds { length label.now ≤ length text.old }
    ensures value { result ≡ length (text_of label.now) }
    ensures text_after { text.new ≡ text_of label.now ++ drop (length (text_of label.now)) text.old }
{
    let mut state = START;
    let mut at = 0;
    for &byte in label {
        let symbol = symbols::symbol_of(byte) as u32;
        let Some(next) = state.advance(symbol) else {
            return at;
        };
        at = put_symbol(symbol, next.remembered, text, at);
        state = next;
    }
    at
}
