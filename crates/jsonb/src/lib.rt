// MySQL's binary JSON: the root, containers by their views, elements, keys and members.
#![tactic(auto)]

mod root;
mod views;

pub use codes::JsonbType;
pub use columns::ColumnType;
pub use layout::Kind;
pub use refusal::Refusal;
pub use root::deserialize;
pub use steps::{Elements, Keys, Member, Members, Step};
pub use value::{Number, Scalar, Span, Value, View};
pub use views::{elem_at, element_count, key_at};
