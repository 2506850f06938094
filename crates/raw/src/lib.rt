// Bytes of a document: little-endian numbers, at a place and never past an end.
#![tactic(auto)]

mod number;

pub use number::{left, number_of, u16_at, u32_at, u64_at};
