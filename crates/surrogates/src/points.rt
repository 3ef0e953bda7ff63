// What is a point, and where a row of numbers has none.
ghost use Rattle.std.specs.Prelude.{◌≡◌};
ghost use Rattle.surrogates.specs.Points.{is_point, first_not_point};

// Whether the number is a point.
#[tactic(auto, using(crate::proofs::Surrogates::point_by_place))]
pub fn is_point(number: u32) -> bool
    ensures { result ≡ is_point number }
{
    matches!(number, 0..=0xd7ff | 0xe000..=0x10ffff)
}

// The index of the first number that is no point, or the length.
pub fn first_not_point(numbers: &[u32]) -> usize
    ensures { result ≡ first_not_point numbers.now }
{
    numbers
        .iter()
        .position(|&number| !is_point(number))
        .unwrap_or(numbers.len())
}
