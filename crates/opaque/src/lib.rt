// Opaque values that are decimals: the hand-over from a document to the crate `decimal`.
#![tactic(auto)]

ghost use Rattle.std.specs.Prelude.{◌≡◌};
ghost use Rattle.opaque.specs.Handed.{decimal_part, opaque_decimal};

use columns::ColumnType;
use decimal::Decimal;
use header::Window;
use refusal::Refusal;
use value::{Scalar, Span, Value};

// The packed bytes of an opaque value whose column type is Newdecimal, nothing for others.
#[tactic(auto, unfolding(crate::specs::Handed::column_part))]
pub fn decimal_part(x: Value) -> Option<Span>
    ensures { result ≡ decimal_part x }
{
    match x {
        Value::Scalar(_, Scalar::Opaque(ColumnType::Newdecimal, part)) => Some(part),
        _ => None,
    }
}

// The decimal in such bytes, with its precision kept or not.
#[tactic(auto, unfolding(crate::specs::Handed::opaque_decimal, header::specs::Headers::place_of))]
pub fn opaque_decimal(doc: &[u8], part: Span, keep: bool) -> Result<Decimal, Refusal>
    ensures { result ≡ opaque_decimal doc.now part keep }
{
    let start = part.start as usize;
    let bytes = Window::new(doc, start, start + part.len as usize)?;
    Decimal::read_packed(&doc[bytes.at..bytes.end], keep)
}
