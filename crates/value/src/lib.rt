// One value of a binary JSON document: a scalar, or a container's view.
#![tactic(auto)]

mod asked;

use codes::JsonbType;
use columns::ColumnType;
use layout::Kind;

// A container: its header's first byte, its size, its count and its kind.
#[derive(Clone, Copy, Debug, PartialEq, Eq)]
pub struct View {
    pub start: u32,
    pub size: u32,
    pub count: u32,
    pub kind: Kind,
}

// Bytes of the document.
#[derive(Clone, Copy, Debug, PartialEq, Eq)]
pub struct Span {
    pub start: u32,
    pub len: u32,
}

// A number: signed, unsigned, a double, or the bits of a double that is no number. It has no `==`, nor what holds it: that of f64 takes 0.0 and -0.0
// for one, and their bits differ.
#[derive(Clone, Copy, Debug)]
pub enum Number {
    Int(i64),
    Uint(u64),
    Double(f64),
    Nan(u64),
}

#[derive(Clone, Copy, Debug)]
pub enum Scalar {
    Null,
    Boolean(bool),
    Number(Number),
    String(Span),
    Opaque(ColumnType, Span),
}

// A scalar with its type, or a container.
#[derive(Clone, Copy, Debug)]
pub enum Value {
    Scalar(JsonbType, Scalar),
    Container(View),
}
