// The root of a document as the first event of a list.
#![tactic(auto)]

ghost use Rattle.std.specs.Prelude.{◌≡◌, MatchResult, ⊤};
ghost use Rattle.events.specs.Walked.{listed};
ghost use Rattle.events.specs.Text.{value_text};
ghost use Rattle.jsonb.specs.Views.{root_read};
ghost use Rattle.events.specs.Lay.{lay, laid};
ghost use Rattle.root_event.specs.Root.{leads_of, leads_to, first_byte, root_node};

use events::{Event, Spot, Stopped};
use refusal::Refusal;
use value::{Scalar, Span, Value, View};

// Where a value's text breaks: of values, strings alone are text.
fn text_check(doc: &[u8], x: Value) -> Result<(), usize>
    ensures { result ≡ value_text doc.now x }
{
    match x {
        Value::Scalar(_, Scalar::String(part)) => texts::text_check(doc, part),
        _ => Ok(()),
    }
}

// Where the root's value starts: past its type byte, which the empty document has not.
#[tactic(auto, unfolding(crate::specs::Root::first_byte))]
fn first_byte(doc: &[u8]) -> u32
    ensures { result ≡ first_byte doc.now }
{
    if doc.is_empty() { 0 } else { 1 }
}

// The container that a value is.
fn leads_of(x: Value) -> Option<View>
    ensures { result ≡ leads_of x }
{
    match x {
        Value::Container(v) => Some(v),
        Value::Scalar(..) => None,
    }
}

// Lists the root: what its value is refused with, then 9 where a string breaks, then 12 where there is no room. The answer is the container that it is.
#[tactic(auto, using(events::proofs::Room::room_fits), unfolding(events::specs::Lay::lay, crate::specs::Root::root_node, crate::specs::Root::value_node))]
pub fn list_root(doc: &[u8], out: &mut [u32]) -> Result<Option<View>, Stopped>
    ensures listed { lay (root_node doc.now) out.old 0 ≡ laid (listed 0 result) out.new }
    ensures leads { MatchResult result (λ u. u ≡ leads_to (root_read doc.now)) (λ s. ⊤) }
{
    let x = jsonb::deserialize(doc).map_err(|refusal| Stopped {
        refusal,
        place: 0,
        count: 0,
    })?;
    text_check(doc, x).map_err(|place| Stopped {
        refusal: Refusal::Utf8,
        place,
        count: 0,
    })?;
    if events::room_in(out) == 0 {
        return Err(Stopped {
            refusal: Refusal::Events,
            place: 0,
            count: 0,
        });
    }
    let spot = Spot {
        depth: 0,
        position: 0,
        parent: 0,
        place: 0,
        key: Span { start: 0, len: 0 },
        from: first_byte(doc),
    };
    Event::new(spot, x).put(out, 0);
    Ok(leads_of(x))
}
