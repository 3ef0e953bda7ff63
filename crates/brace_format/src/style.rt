// The four styles.
ghost use Rattle.std.specs.Prelude.{◌≡◌, ◌≤◌, ◌<◌};
ghost use Rattle.brace_format.specs.Style.{other_half, head_width, head_value, width_of, code_of};

// Half-row style with its half-row, row style with its row, mixed style with its half-row, and no-row style.
#[derive(Clone, Copy)]
pub enum Style {
    HalfRow(u16),
    Row(u16),
    Mixed(u16),
    NoRow,
}

// The other half-row of the same row.
#[tactic(auto, unfolding(crate::specs::Style::other_half))]
pub fn other_half(half: u16) -> u16
    ensures { result ≡ other_half half }
{
    if half % 2 == 0 {
        return half + 1;
    }
    half - 1
}

// How many bits there are before the codes.
#[tactic(auto, unfolding(crate::specs::Style::head_width))]
pub fn head_width(style: Style) -> u32
    ensures value { result ≡ head_width style }
    ensures upper_bound { result ≤ 11 }
{
    match style {
        Style::HalfRow(_) => 11,
        Style::Row(_) => 10,
        Style::Mixed(_) => 11,
        Style::NoRow => 2,
    }
}

// The value of the bits before the codes.
#[tactic(auto, unfolding(crate::specs::Style::head_value))]
pub fn head_value(style: Style) -> u32
    ensures value { result ≡ head_value style }
    ensures upper_bound { result < 262144 }
{
    match style {
        Style::HalfRow(half) => half as u32,
        Style::Row(row) => 256 + row as u32,
        Style::Mixed(half) => 1024 + half as u32,
        Style::NoRow => 3,
    }
}

// How many bits the code of a unit has in mixed style.
#[tactic(auto, unfolding(crate::specs::Style::width_of))]
fn mixed_width(half: u16, unit: u16) -> u32
    ensures { result ≡ width_of (Style.Mixed half) unit }
{
    if unit / 128 == half {
        return 8;
    }
    if unit / 128 == other_half(half) {
        return 9;
    }
    18
}

// How many bits the code of a unit has.
#[tactic(auto, unfolding(crate::specs::Style::width_of))]
pub fn width(style: Style, unit: u16) -> u32
    ensures { result ≡ width_of style unit }
{
    match style {
        Style::HalfRow(_) => 7,
        Style::Row(_) => 8,
        Style::Mixed(half) => mixed_width(half, unit),
        Style::NoRow => 16,
    }
}

// The value of the code of a unit in mixed style.
#[tactic(auto, unfolding(crate::specs::Style::code_of))]
fn mixed_code(half: u16, unit: u16) -> u32
    ensures value { result ≡ code_of (Style.Mixed half) unit }
    ensures upper_bound { result < 262144 }
{
    if unit / 128 == half {
        return (unit % 128) as u32;
    }
    if unit / 128 == other_half(half) {
        return 256 + (unit % 128) as u32;
    }
    196608 + unit as u32
}

// The value of the code of a unit.
#[tactic(auto, unfolding(crate::specs::Style::code_of))]
pub fn code(style: Style, unit: u16) -> u32
    ensures value { result ≡ code_of style unit }
    ensures upper_bound { result < 262144 }
{
    match style {
        Style::HalfRow(_) => (unit % 128) as u32,
        Style::Row(_) => (unit % 256) as u32,
        Style::Mixed(half) => mixed_code(half, unit),
        Style::NoRow => unit as u32,
    }
}
