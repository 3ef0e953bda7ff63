// What is a point and what a surrogate, and where a row of numbers or of units is no text.
#![tactic(auto)]

pub mod points;
pub mod units;
