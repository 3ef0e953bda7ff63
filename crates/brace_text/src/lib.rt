// Reading the text of a label's body: the head, and the queue of bits from which codes are taken.
#![tactic(auto)]

ghost use Rattle.std.specs.Prelude.{◌+◌, ◌*◌, ◌^◌, ◌≤◌, ◌<◌, ◌≡◌, [], ◌++◌, length, drop};
ghost use Rattle.basis.specs.Internal.{Stored};
ghost use Rattle.basis.specs.Outcome.{buffer_after};
ghost use Rattle.utf16.specs.Answer.{units_outcome};
ghost use Rattle.alphabet.specs.Alphabet.{brace};
ghost use Rattle.copying.specs.Symbols.{quintet_of, head_number};
ghost use Rattle.copying.specs.Modes.{next_mode};
ghost use Rattle.brace_format.specs.Style.{width_by, unit_of};
ghost use Rattle.brace_text.specs.Decoding.{due_width, count_left, value_left, unit_taken, next_count, next_value, adds, text_from, head_length, head_spare, head_style, kind_of, body_text};
ghost use Rattle.brace_text.specs.Answer.{body_outcome};
ghost use Rattle.brace_text.specs.Internal.{RowFits, RowFits-prop, bits_of, hyphen_adds};

use basis::{ErrorCode, Refusal};
use brace_format::style;
use brace_format::style::Style;
use copying::Mode;
use utf16::UnitCount;

// Two to a power.
fn power(n: u32) -> u32
    requires { n ≤ 22 }
    ensures { result ≡ 2 ^ n }
{
    1 << n
}

// The quintet of a byte, 0 where it is none of the 32 characters.
#[tactic(auto, unfolding(copying::specs::Symbols::quintet_of))]
fn quintet_of(byte: u8) -> u32
    ensures value { result ≡ quintet_of brace byte }
    ensures upper_bound { result < 32 }
{
    (alphabet::brace_look_up(byte).value % 32) as u32
}

// How many bits a code has that begins with these two bits, in mixed style.
#[tactic(auto, unfolding(brace_format::specs::Style::width_by))]
fn mixed_width_by(top: u32) -> u32
    ensures { result ≡ width_by (Style.Mixed 0) top }
{
    if top < 2 {
        return 8;
    }
    if top == 2 {
        return 9;
    }
    18
}

// How many bits a code has that begins with these two bits.
#[tactic(auto, unfolding(brace_format::specs::Style::width_by))]
fn width_by(style: Style, top: u32) -> u32
    ensures { result ≡ width_by style top }
{
    match style {
        Style::HalfRow(_) => 7,
        Style::Row(_) => 8,
        Style::Mixed(_) => mixed_width_by(top),
        Style::NoRow => 16,
    }
}

// The unit of a code in mixed style.
#[tactic(auto, unfolding(brace_format::specs::Style::unit_of, brace_format::specs::Style::other_half))]
fn mixed_unit(half: u16, code: u32) -> u16
    requires { half < 512 }
    ensures { result ≡ unit_of (Style.Mixed half) code }
{
    if code < 128 {
        return half * 128 + code as u16;
    }
    if code < 65536 {
        return style::other_half(half) * 128 + (code % 128) as u16;
    }
    (code % 65536) as u16
}

// The unit of a code.
#[tactic(auto, unfolding(brace_format::specs::Style::unit_of, crate::specs::Internal::RowFits))]
fn unit_of(style: Style, code: u32) -> u16
    requires { RowFits style }
    ensures { result ≡ unit_of style code }
{
    match style {
        Style::HalfRow(half) => half * 128 + (code % 128) as u16,
        Style::Row(row) => row * 256 + (code % 256) as u16,
        Style::Mixed(half) => mixed_unit(half, code),
        Style::NoRow => (code % 65536) as u16,
    }
}

// Stores a hyphen if it is the second of a pair, and answers the index after it.
fn put_hyphen(mode: Mode, units: &mut [u16], at: usize) -> usize
    requires { at < length units.old }
    ensures { Stored units.old at (hyphen_adds mode) units.new result }
{
    if copying::is_second(mode) {
        units[at] = 45;
        return at + 1;
    }
    at
}

// A queue of bits: how many, and their value.
// Kept as clauses: `2 ≤ self.count` holds only of a queue that `with` has just lengthened; one between two bytes may be empty.
#[derive(Clone, Copy)]
struct Queue {
    count: u32,
    value: u32,
    ghost few: { count ≤ 22 },
    ghost fits: { value < 2 ^ count },
}

impl Queue {
    // The queue with a quintet at its end.
    fn with(self, quintet: u32) -> Self
        requires { (self.count ≤ 17) × (quintet < 32) }
        ensures { (result.count ≡ self.count + 5) × (result.value ≡ self.value * 32 + quintet) }
    {
        Queue {
            count: self.count + 5,
            value: self.value * 32 + quintet,
        }
    }

    // How many bits its first code has.
    #[tactic(auto, unfolding(crate::specs::Decoding::due_width))]
    fn due_width(self, style: Style) -> u32
        requires { 2 ≤ self.count }
        ensures { result ≡ due_width style self.count self.value }
    {
        width_by(style, self.value >> (self.count - 2))
    }

    // The queue without its first code, if that is whole.
    #[tactic(auto, unfolding(crate::specs::Decoding::count_left, crate::specs::Decoding::value_left, crate::specs::Decoding::is_whole))]
    fn without_code(self, style: Style) -> Self
        requires { 2 ≤ self.count }
        ensures { (result.count ≡ count_left style self.count self.value) × (result.value ≡ value_left style self.count self.value) }
    {
        let width = self.due_width(style);
        if self.count < width {
            return self;
        }
        let left = self.count - width;
        Queue {
            count: left,
            value: self.value % power(left),
        }
    }

    // Stores the unit of its first code, if that is whole, and answers the index after it.
    fn put_taken(self, style: Style, units: &mut [u16], at: usize) -> usize
        requires le_count { (2 ≤ self.count) × RowFits style }
        requires at_in_bounds { at < length units.old }
        ensures { Stored units.old at (unit_taken style self.count self.value []) units.new result }
    {
        let width = self.due_width(style);
        if self.count < width {
            return at;
        }
        let left = self.count - width;
        units[at] = unit_of(style, self.value >> left);
        at + 1
    }
}

// Where reading stands in a body: its style, the mode and the queue.
#[derive(Clone, Copy)]
struct Progress {
    style: Style,
    mode: Mode,
    queue: Queue,
    ghost row_fits: { RowFits style } by { RowFits-prop style },
    ghost few: { queue.count ≤ 17 },
}

impl Progress {
    // Stores what a byte adds to the text, and answers the index after it.
    fn put_byte(self, byte: u8, units: &mut [u16], at: usize) -> usize
        requires { at < length units.old }
        ensures { Stored units.old at (adds self.style self.mode self.queue.count self.queue.value byte []) units.new result }
    {
        if byte == 45 {
            return put_hyphen(self.mode, units, at);
        }
        if copying::is_copied(self.mode) {
            units[at] = byte as u16;
            return at + 1;
        }
        let longer = self.queue.with(quintet_of(byte));
        longer.put_taken(self.style, units, at)
    }

    // The queue after a byte.
    fn next_queue(self, byte: u8) -> Queue
        ensures { (result.count ≡ next_count self.style self.mode self.queue.count self.queue.value byte) × (result.value ≡ next_value self.style self.mode self.queue.count self.queue.value byte) }
    {
        if byte == 45 {
            return self.queue;
        }
        if copying::is_copied(self.mode) {
            return self.queue;
        }
        let longer = self.queue.with(quintet_of(byte));
        longer.without_code(self.style)
    }

    // After a byte.
    fn after(self, byte: u8) -> Self
        ensures styled { result.style ≡ self.style }
        ensures mode { result.mode ≡ next_mode self.mode byte }
        ensures queue { (result.queue.count ≡ next_count self.style self.mode self.queue.count self.queue.value byte) × (result.queue.value ≡ next_value self.style self.mode self.queue.count self.queue.value byte) }
    {
        let mode = copying::next_mode(self.mode, byte);
        let queue = self.next_queue(byte);
        Progress {
            style: self.style,
            mode,
            // Number by number: a queue copied whole is packed and unpacked at each byte, and reading took half as long again.
            queue: Queue {
                count: queue.count,
                value: queue.value,
            },
        }
    }
}

// Stores the text of the bytes after the head, and answers the number of its units.
fn put_text(start: Progress, rest: &[u8], units: &mut [u16]) -> usize
    requires { length rest.now ≤ length units.old }
    ensures value { result ≡ length (text_from start.style start.mode start.queue.count start.queue.value rest.now) }
    ensures units_after { units.new ≡ text_from start.style start.mode start.queue.count start.queue.value rest.now ++ drop (length (text_from start.style start.mode start.queue.count start.queue.value rest.now)) units.old }
{
    let mut progress = start;
    let mut at = 0;
    for &byte in rest {
        at = progress.put_byte(byte, units, at);
        progress = progress.after(byte);
    }
    at
}

// The kinds of style, of which the head names one.
#[derive(Clone, Copy)]
enum Kind {
    HalfRow,
    Row,
    Mixed,
    NoRow,
}

// The kind of a body's style.
#[tactic(auto, using(crate::proofs::Head::empty_kind), unfolding(crate::specs::Decoding::kind_of))]
fn kind_of(body: &[u8]) -> Kind
    ensures { bits_of result ≡ kind_of body.now }
{
    if body.len() == 0 {
        return Kind::HalfRow;
    }
    match quintet_of(body[0]) / 8 {
        0 => Kind::HalfRow,
        1 => Kind::Row,
        2 => Kind::Mixed,
        _ => Kind::NoRow,
    }
}

impl Kind {
    // How many characters the head of a body takes.
    #[tactic(auto, unfolding(crate::specs::Decoding::head_length))]
    fn head_length(self) -> usize
        ensures value { result ≡ head_length (bits_of self) }
        ensures upper_bound { result ≤ 3 }
    {
        match self {
            Kind::HalfRow => 3,
            Kind::Row => 2,
            Kind::Mixed => 3,
            Kind::NoRow => 1,
        }
    }

    // How many bits of the first code the head holds.
    #[tactic(auto, unfolding(crate::specs::Decoding::head_spare))]
    fn head_spare(self) -> u32
        ensures value { result ≡ head_spare (bits_of self) }
        ensures upper_bound { result ≤ 4 }
    {
        match self {
            Kind::HalfRow => 4,
            Kind::Row => 0,
            Kind::Mixed => 4,
            Kind::NoRow => 3,
        }
    }

    // The style by the number that the head holds.
    #[tactic(auto, unfolding(crate::specs::Decoding::head_style, crate::specs::Internal::RowFits))]
    fn head_style(self, number: u32) -> Style
        ensures value { result ≡ head_style (bits_of self) number }
        ensures row_fits { RowFits result }
    {
        match self {
            Kind::HalfRow => Style::HalfRow((number / 16 % 512) as u16),
            Kind::Row => Style::Row((number % 256) as u16),
            Kind::Mixed => Style::Mixed((number / 16 % 512) as u16),
            Kind::NoRow => Style::NoRow,
        }
    }
}

// The number whose quintets are the bytes.
fn head_number(head: &[u8]) -> u32
    requires { length head.now ≤ 3 }
    ensures { result ≡ head_number brace (length head.now) 0 head.now }
{
    let mut number = 0;
    for &byte in head {
        number = number * 32 + quintet_of(byte);
    }
    number
}

// Stores the text of a body, what is before the signature, and answers the number of its units.
fn put_body(body: &[u8], units: &mut [u16]) -> usize
    requires { length body.now ≤ length units.old }
    ensures value { result ≡ length (body_text body.now) }
    ensures units_after { units.new ≡ body_text body.now ++ drop (length (body_text body.now)) units.old }
{
    let kind = kind_of(body);
    let (head, rest) = body.split_at(kind.head_length().min(body.len()));
    let number = head_number(head);
    let spare = kind.head_spare();
    let start = Progress {
        style: kind.head_style(number),
        mode: Mode::Coded,
        queue: Queue {
            count: spare,
            value: number % power(spare),
        },
    };
    put_text(start, rest, units)
}

// Reads the text of a body.
pub fn read_body(body: &[u8], units: &mut [u16]) -> Result<UnitCount, Refusal>
    ensures result_value { units_outcome result ≡ body_outcome (length units.old) body.now }
    ensures units_after { units.new ≡ buffer_after (body_outcome (length units.old) body.now) (body_text body.now) units.old }
{
    if units.len() < body.len() {
        return Err(ErrorCode::Capacity.at(0));
    }
    let count = put_body(body, units);
    Ok(UnitCount(count))
}
