// The digits of a decimal in groups of nine: how many digits and bytes each group has.
#![tactic(auto)]

mod layout;

pub use layout::{Sides, accepted, power, sides_of, size};

// A sign, as many integral and fractional digits, and these digits in groups of nine from the point outwards, as a decimal's record keeps them. Those
// that are a decimal's: the crate formed.
#[derive(Clone, Copy, Debug, PartialEq, Eq)]
pub struct Parts {
    pub negative: bool,
    pub intg: usize,
    pub frac: usize,
    pub groups: [u32; 9],
}
