// LACE: encoding a text as a label, and decoding a label, with marks and without.
#![tactic(auto)]

pub use lace_decoding::{decode, decode_marked};
pub use lace_encoding::{encode, encode_marked};
