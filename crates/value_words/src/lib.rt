// The words in which programs print what jsonb's functions answer.
#![tactic(auto)]

use jsonb::{Kind, Member, Number, Scalar, Span, Value, View};
use std::fmt;
use std::fmt::{Display, Formatter};

// What is printed as words.
#[derive(Clone, Copy)]
pub struct Words<T>(pub T);

impl Display for Words<Kind> {
    fn fmt<W: fmt::Write>(&self, f: &mut Formatter<W>) -> fmt::Result {
        let Kind { object, large } = self.0;
        let code = match (object, large) {
            (true, false) => 0u8,
            (true, true) => 1,
            (false, false) => 2,
            (false, true) => 3,
        };
        write!(f, "{code}")
    }
}

// Kind, start, count and size.
impl Display for Words<View> {
    fn fmt<W: fmt::Write>(&self, f: &mut Formatter<W>) -> fmt::Result {
        let View {
            start,
            size,
            count,
            kind,
        } = self.0;
        write!(f, "{} {start} {count} {size}", Words(kind))
    }
}

// No double of a document's is a NaN: the bits of these have a case of their own.
impl Display for Words<Number> {
    fn fmt<W: fmt::Write>(&self, f: &mut Formatter<W>) -> fmt::Result {
        match self.0 {
            Number::Int(n) => write!(f, "int {n}"),
            Number::Uint(n) => write!(f, "uint {n}"),
            Number::Double(x) => {
                if x.is_nan() {
                    return write!(f, "double that is none");
                }
                write!(f, "double {:016x}", x.to_bits())
            }
            Number::Nan(bits) => write!(f, "double {bits:016x}"),
        }
    }
}

impl Display for Words<Scalar> {
    fn fmt<W: fmt::Write>(&self, f: &mut Formatter<W>) -> fmt::Result {
        match self.0 {
            Scalar::Null => write!(f, "null"),
            Scalar::Boolean(b) => write!(f, "{b}"),
            Scalar::Number(x) => write!(f, "{}", Words(x)),
            Scalar::String(Span { start, len }) => write!(f, "string {start} {len}"),
            Scalar::Opaque(t, Span { start, len }) => {
                write!(f, "opaque {} {start} {len}", t.code())
            }
        }
    }
}

impl Display for Words<Value> {
    fn fmt<W: fmt::Write>(&self, f: &mut Formatter<W>) -> fmt::Result {
        match self.0 {
            Value::Scalar(t, s) => write!(f, "scalar {} {}", t.code(), Words(s)),
            Value::Container(v) => write!(f, "container {}", Words(v)),
        }
    }
}

// Where a key stands: no other span is an answer.
impl Display for Words<Span> {
    fn fmt<W: fmt::Write>(&self, f: &mut Formatter<W>) -> fmt::Result {
        let Span { start, len } = self.0;
        write!(f, "key {start} {len}")
    }
}

impl Display for Words<Member> {
    fn fmt<W: fmt::Write>(&self, f: &mut Formatter<W>) -> fmt::Result {
        let Member { key, value } = self.0;
        write!(f, "{} = {}", Words(key), Words(value))
    }
}

// Something that is looked for.
impl<T: Copy> Display for Words<Option<T>>
where
    Words<T>: Display,
{
    fn fmt<W: fmt::Write>(&self, f: &mut Formatter<W>) -> fmt::Result {
        match self.0 {
            Some(x) => write!(f, "{}", Words(x)),
            None => write!(f, "nothing"),
        }
    }
}
