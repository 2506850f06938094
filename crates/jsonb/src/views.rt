// A container by its view: elements, keys and the count.
ghost use Rattle.std.specs.Prelude.{◌≡◌};
ghost use Rattle.gate.specs.Said.{read_said, said};
ghost use Rattle.jsonb.specs.Views.{elem_at, key_at, count_at};

use gate::{is_whole, item_at};
use refusal::Refusal;
use value::{Span, Value, View};

// The element, or the member's value, at a position; nothing at or past the count.
#[tactic(auto, using(gate::proofs::Gates::entry_gated), unfolding(crate::specs::Views::elem_at))]
pub fn elem_at(doc: &[u8], v: View, pos: u32) -> Result<Option<Value>, Refusal>
    ensures { said result ≡ elem_at doc.now v pos }
{
    item_at(doc, v, true, pos, || entry::read_entry(doc, v, pos))
}

// The key at a position; nothing at or past the count.
#[tactic(auto, using(gate::proofs::Gates::key_gated), unfolding(crate::specs::Views::key_at))]
pub fn key_at(doc: &[u8], v: View, pos: u32) -> Result<Option<Span>, Refusal>
    ensures { said result ≡ key_at doc.now v pos }
{
    item_at(doc, v, v.kind.object, pos, || keys::read_key(doc, v, pos))
}

// How many elements or members a view has.
#[tactic(auto, unfolding(crate::specs::Views::count_at))]
pub fn element_count(doc: &[u8], v: View) -> Result<u32, Refusal>
    ensures { read_said result ≡ count_at doc.now v }
{
    if 16777216 < doc.len() {
        return Err(Refusal::Document);
    }
    if !is_whole(doc, v) {
        return Err(Refusal::View);
    }
    Ok(v.count)
}
