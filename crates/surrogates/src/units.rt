// Surrogates, and where a row of units has an unpaired one.
ghost use Rattle.std.specs.Prelude.{◌≡◌, ℕ, List, length, get_or};
ghost use Rattle.surrogates.specs.Surrogates.{is_high, is_low, is_unpaired, first_unpaired};

// Whether the unit is a high surrogate.
#[tactic(auto, using(crate::proofs::Surrogates::surrogate_by_place), unfolding(crate::specs::Surrogates::is_high))]
pub fn is_high(unit: u16) -> bool
    ensures { result ≡ is_high unit }
{
    matches!(unit, 0xd800..=0xdbff)
}

// Whether the unit is a low surrogate.
#[tactic(auto, using(crate::proofs::Surrogates::surrogate_by_place), unfolding(crate::specs::Surrogates::is_low))]
pub fn is_low(unit: u16) -> bool
    ensures { result ≡ is_low unit }
{
    matches!(unit, 0xdc00..=0xdfff)
}

// Whether the unit is an unpaired surrogate between its neighbours.
pub fn is_unpaired(before: u16, unit: u16, after: u16) -> bool
    ensures { result ≡ is_unpaired before unit after }
{
    if is_high(unit) {
        return !is_low(after);
    }
    if is_low(unit) {
        return !is_high(before);
    }
    false
}

// A row of units, held as they are or in another form.
pub trait Units {
    ghost units: { Self → List ℕ };

    // How many units it has.
    fn count(&self) -> usize
        ensures { result ≡ length (units self.now) };

    // The unit at an index, 0 past the end.
    fn unit_at(&self, i: usize) -> u16
        ensures { result ≡ get_or (units self.now) i 0 };
}

impl Units for &[u16] {
    ghost units = { λ row. row.now };

    fn count(&self) -> usize {
        self.len()
    }

    fn unit_at(&self, i: usize) -> u16 {
        self.get(i).copied().unwrap_or(0)
    }
}

// The index of the first unpaired surrogate of a row in any form, or the number of units.
pub fn first_unpaired_of<R: Units>(row: &R) -> usize
    ensures { result ≡ first_unpaired (R.units row.now) }
{
    let mut before = 0;
    for i in 0..row.count() {
        let unit = row.unit_at(i);
        if is_unpaired(before, unit, row.unit_at(i + 1)) {
            return i;
        }
        before = unit;
    }
    row.count()
}

// The index of the first unpaired surrogate, or the length.
pub fn first_unpaired(units: &[u16]) -> usize
    ensures { result ≡ first_unpaired units.now }
{
    first_unpaired_of(&units)
}
