// The root of a document.
ghost use Rattle.std.specs.Prelude.{◌≡◌};
ghost use Rattle.jsonb.specs.Views.{root_read};

use codes::JsonbType;
use refusal::Refusal;
use value::{Scalar, Value};

// The root value. The empty document is null; bytes after the root value are not read.
#[tactic(auto, unfolding(crate::specs::Views::root_read))]
pub fn deserialize(doc: &[u8]) -> Result<Value, Refusal>
    ensures { result ≡ root_read doc.now }
{
    let n = doc.len();
    if 16777216 < n {
        return Err(Refusal::Document);
    }
    if n == 0 {
        return Ok(Value::Scalar(JsonbType::Literal, Scalar::Null));
    }
    let t = JsonbType::try_from(doc[0])?;
    content::value_at(doc, t, 1, n)
}
