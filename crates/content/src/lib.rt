// What stands at a place of a document: a scalar, or a container's view. Positions are absolute in the document; `end` is the end of the enclosing
// container.
#![tactic(auto)]

ghost use Rattle.std.specs.Prelude.{◌≡◌};
ghost use Rattle.std.specs.Float.{binary64};
ghost use Rattle.std.specs.Float.Ieee.{nan_bits};
ghost use Rattle.content.specs.Reading.{container_at, literal_at, double_of, number_at, part_at, string_at, opaque_at, content_at, read_at};

use codes::{JsonbType, LiteralType};
use columns::ColumnType;
use header::Window;
use layout::Kind;
use length_field::Length;
use refusal::Refusal;
use value::{Number, Scalar, Span, Value, View};

fn container(w: Window<'_>, kind: Kind) -> Result<Value, Refusal>
    ensures { result ≡ container_at w.entry.doc.now kind w.entry.at w.entry.end }
{
    let header = w.header(kind)?;
    Ok(Value::Container(View {
        start: w.at as u32,
        size: header.size,
        count: header.count,
        kind,
    }))
}

#[tactic(auto, unfolding(crate::specs::Reading::literal_at))]
fn literal(w: Window<'_>) -> Result<Value, Refusal>
    ensures { result ≡ literal_at w.entry.doc.now w.entry.at w.entry.end }
{
    if w.end <= w.at {
        return Err(Refusal::Cut);
    }
    let scalar = match LiteralType::try_from(w.doc[w.at])? {
        LiteralType::Null => Scalar::Null,
        LiteralType::True => Scalar::Boolean(true),
        LiteralType::False => Scalar::Boolean(false),
    };
    Ok(Value::Scalar(JsonbType::Literal, scalar))
}

// Whether they are the bits of a double that is no number.
#[tactic(auto, using(crate::proofs::Doubles::nan_is))]
fn is_nan(n: u64) -> bool
    ensures { result ≡ nan_bits binary64 n }
{
    let exponent = n % 9223372036854775808 / 4503599627370496;
    exponent == 2047 && n % 4503599627370496 != 0
}

#[tactic(auto, unfolding(crate::specs::Reading::double_of))]
fn double(n: u64) -> Number
    ensures { result ≡ double_of n }
{
    if is_nan(n) {
        return Number::Nan(n);
    }
    Number::Double(f64::from_bits(n))
}

// A number that was read of so many bytes, where they are all there.
#[tactic(auto, unfolding(crate::specs::Reading::number_at))]
fn number(w: Window<'_>, t: JsonbType, width: usize, x: Number) -> Result<Value, Refusal>
    ensures { result ≡ number_at t width w.entry.at w.entry.end x }
{
    if w.end - w.at < width {
        return Err(Refusal::Cut);
    }
    Ok(Value::Scalar(t, Scalar::Number(x)))
}

// A length field and as many bytes: where the bytes are.
#[inline(always)]
#[tactic(auto, using(crate::proofs::Fields::field_within), unfolding(crate::specs::Reading::part_at))]
pub fn part(w: Window<'_>) -> Result<Span, Refusal>
    ensures { result ≡ part_at w.entry.doc.now w.entry.at w.entry.end }
{
    let Length { length, next } = length_field::length_at(w.doc, w.at, w.end)?;
    if w.end - next < length as usize {
        return Err(Refusal::Cut);
    }
    Ok(Span {
        start: next as u32,
        len: length,
    })
}

#[tactic(auto, unfolding(crate::specs::Reading::string_at))]
fn string(w: Window<'_>) -> Result<Value, Refusal>
    ensures { result ≡ string_at w.entry.doc.now w.entry.at w.entry.end }
{
    Ok(Value::Scalar(JsonbType::String, Scalar::String(part(w)?)))
}

#[tactic(auto, unfolding(crate::specs::Reading::opaque_at))]
fn opaque(w: Window<'_>) -> Result<Value, Refusal>
    ensures { result ≡ opaque_at w.entry.doc.now w.entry.at w.entry.end }
{
    if w.end <= w.at {
        return Err(Refusal::Cut);
    }
    let column = ColumnType::try_from(w.doc[w.at])?;
    let bytes = part(Window {
        doc: w.doc,
        at: w.at + 1,
        end: w.end,
    })?;
    Ok(Value::Scalar(JsonbType::Opaque, Scalar::Opaque(column, bytes)))
}

#[tactic(auto, unfolding(crate::specs::Reading::content_at))]
fn content(w: Window<'_>, t: JsonbType) -> Result<Value, Refusal>
    ensures { result ≡ content_at w.entry.doc.now t w.entry.at w.entry.end }
{
    let Window { doc, at, end } = w;
    match t {
        JsonbType::SmallObject
        | JsonbType::LargeObject
        | JsonbType::SmallArray
        | JsonbType::LargeArray => {
            let object = matches!(t, JsonbType::SmallObject | JsonbType::LargeObject);
            let large = matches!(t, JsonbType::LargeObject | JsonbType::LargeArray);
            container(w, Kind { object, large })
        }
        JsonbType::Literal => literal(w),
        JsonbType::Int16 => number(w, t, 2, Number::Int(signed::i16_at(doc, at, end))),
        JsonbType::Uint16 => number(w, t, 2, Number::Uint(raw::u16_at(doc, at, end))),
        JsonbType::Int32 => number(w, t, 4, Number::Int(signed::i32_at(doc, at, end))),
        JsonbType::Uint32 => number(w, t, 4, Number::Uint(raw::u32_at(doc, at, end))),
        JsonbType::Int64 => number(w, t, 8, Number::Int(signed::i64_at(doc, at, end))),
        JsonbType::Uint64 => number(w, t, 8, Number::Uint(raw::u64_at(doc, at, end))),
        JsonbType::Double => number(w, t, 8, double(raw::u64_at(doc, at, end))),
        JsonbType::String => string(w),
        JsonbType::Opaque => opaque(w),
    }
}

// The value of a type at a place, up to an end.
#[tactic(auto, unfolding(crate::specs::Reading::read_at))]
pub fn value_at(doc: &[u8], t: JsonbType, at: usize, end: usize) -> Result<Value, Refusal>
    ensures { result ≡ read_at doc.now t at end }
{
    content(Window::new(doc, at, end)?, t)
}
