// What schemes share that copy letters, digits and hyphens between coded characters: the mode of reading, which hyphens change.
#![tactic(auto)]

ghost use Rattle.std.specs.Prelude.{◌≡◌};
ghost use Rattle.copying.specs.Modes.{after_hyphen, after_other, is_second, is_copied, next_mode, copying_after};

// Letters are coded or copied; the same after one hyphen, of which the next byte tells whether it is half of a pair or a change.
#[derive(Clone, Copy)]
pub enum Mode {
    Coded,
    CodedHyphen,
    Copied,
    CopiedHyphen,
}

// The mode after a hyphen.
#[tactic(auto, unfolding(crate::specs::Modes::after_hyphen))]
fn after_hyphen(mode: Mode) -> Mode
    ensures { result ≡ after_hyphen mode }
{
    match mode {
        Mode::Coded => Mode::CodedHyphen,
        Mode::CodedHyphen => Mode::Coded,
        Mode::Copied => Mode::CopiedHyphen,
        Mode::CopiedHyphen => Mode::Copied,
    }
}

// The mode after any other byte.
#[tactic(auto, unfolding(crate::specs::Modes::after_other))]
fn after_other(mode: Mode) -> Mode
    ensures { result ≡ after_other mode }
{
    match mode {
        Mode::Coded => Mode::Coded,
        Mode::CodedHyphen => Mode::Copied,
        Mode::Copied => Mode::Copied,
        Mode::CopiedHyphen => Mode::Coded,
    }
}

// Whether the byte before was the first hyphen of a pair, or a change.
#[tactic(auto, unfolding(crate::specs::Modes::is_second))]
pub fn is_second(mode: Mode) -> bool
    ensures { result ≡ is_second mode }
{
    matches!(mode, Mode::CodedHyphen | Mode::CopiedHyphen)
}

// Whether a byte other than a hyphen is copied.
#[tactic(auto, unfolding(crate::specs::Modes::is_copied))]
pub fn is_copied(mode: Mode) -> bool
    ensures { result ≡ is_copied mode }
{
    matches!(mode, Mode::CodedHyphen | Mode::Copied)
}

// The mode after a byte.
#[tactic(auto, unfolding(crate::specs::Modes::next_mode))]
pub fn next_mode(mode: Mode, byte: u8) -> Mode
    ensures { result ≡ next_mode mode byte }
{
    if byte == 45 {
        return after_hyphen(mode);
    }
    after_other(mode)
}

// Whether letters are being copied after an element of a text.
#[tactic(auto, unfolding(crate::specs::Modes::copying_after))]
pub fn copying_after(copying: bool, element: u32) -> bool
    ensures { result ≡ copying_after copying element }
{
    if element == 45 {
        return copying;
    }
    ascii::is_ldh(element)
}
