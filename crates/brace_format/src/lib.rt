// What a label of BRACE says of itself: its style, and the signature at its end.
#![tactic(auto)]

pub mod signature;
pub mod style;
