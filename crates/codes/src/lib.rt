// The numbers of binary JSON as enums: type codes and literals.
#![tactic(auto)]

mod literals;
mod types;

pub use literals::LiteralType;
pub use types::JsonbType;
