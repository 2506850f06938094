// Opaque values that are dates or times: the hand-over from a document to the crate `time`.
#![tactic(auto)]

ghost use Rattle.std.specs.Prelude.{◌≡◌};
ghost use Rattle.refusal.specs.Told.{told_by};
ghost use Rattle.time.specs.Answers.{numbers};
ghost use Rattle.opaque_time.specs.Handed.{time_part, opaque_told};

use header::Window;
use refusal::Refusal;
use time::{MysqlTime, TimeType};
use value::{Scalar, Span, Value};

// The type and the packed bytes of a value that is an opaque date or time.
#[tactic(auto, unfolding(crate::specs::Handed::column_part))]
pub fn time_part(x: Value) -> Option<(TimeType, Span)>
    ensures { result ≡ time_part x }
{
    match x {
        Value::Scalar(_, Scalar::Opaque(t, part)) => {
            Some((TimeType::of(u32::from(t.code()))?, part))
        }
        _ => None,
    }
}

// The date or time in such bytes.
#[tactic(auto, unfolding(crate::specs::Handed::opaque_told, header::specs::Headers::place_of))]
pub fn opaque_time(doc: &[u8], part: Span, kind: TimeType) -> Result<MysqlTime, Refusal>
    ensures { told_by numbers result ≡ opaque_told doc.now part kind }
{
    let start = part.start as usize;
    let bytes = Window::new(doc, start, start + part.len as usize)?;
    MysqlTime::read_packed(&doc[bytes.at..bytes.end], kind)
}
