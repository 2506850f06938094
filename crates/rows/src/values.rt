// A value as numbers: what kind it is, and two numbers that say what it holds.
ghost use Rattle.std.specs.Prelude.{◌≡◌};
ghost use Rattle.rows.specs.Rows.{kind_of, bits_of, holds};

use value::{Number, Scalar, Span, Value};

// What kind of value it is.
pub(crate) fn kind_of(x: Value) -> u32
    ensures { result ≡ kind_of x }
{
    match x {
        Value::Scalar(_, Scalar::Null) => 1,
        Value::Scalar(_, Scalar::Boolean(_)) => 2,
        Value::Scalar(_, Scalar::Number(Number::Int(_))) => 3,
        Value::Scalar(_, Scalar::Number(Number::Uint(_))) => 4,
        Value::Scalar(_, Scalar::Number(Number::Double(_) | Number::Nan(_))) => 5,
        Value::Scalar(_, Scalar::String(_)) => 6,
        Value::Scalar(_, Scalar::Opaque(_, _)) => 7,
        Value::Container(_) => 8,
    }
}

// The 64 bits of a number. A double that is no number has the only pattern that the logic has for it; a document's have a case of their own.
fn bits_of(x: Number) -> u64
    ensures { result ≡ bits_of x }
{
    match x {
        Number::Int(n) => n.cast_unsigned(),
        Number::Uint(n) | Number::Nan(n) => n,
        Number::Double(x) if x.is_nan() => 9221120237041090560,
        Number::Double(x) => x.to_bits(),
    }
}

// Two numbers that say what a value holds.
pub(crate) fn holds(x: Value) -> Span
    ensures { result ≡ holds x }
{
    match x {
        Value::Scalar(_, Scalar::Null) => Span { start: 0, len: 0 },
        Value::Scalar(_, Scalar::Boolean(b)) => Span {
            start: u32::from(b),
            len: 0,
        },
        Value::Scalar(_, Scalar::Number(x)) => {
            let bits = bits_of(x);
            Span {
                start: (bits % 4294967296) as u32,
                len: (bits / 4294967296) as u32,
            }
        }
        Value::Scalar(_, Scalar::String(s) | Scalar::Opaque(_, s)) => s,
        Value::Container(v) => Span {
            start: v.start,
            len: v.size,
        },
    }
}
