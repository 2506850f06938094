// Decimal text: from characters to groups of nine digits.
#![tactic(auto)]

mod reader;

pub use reader::read;
