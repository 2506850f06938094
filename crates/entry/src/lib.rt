// The value entries of a container: the value at a position, by the container's view.
#![tactic(auto)]

ghost use Rattle.std.specs.Prelude.{◌≡◌, ◌<◌};
ghost use Rattle.entry.specs.Entries.{is_inlined, place_at, entry_read};

use codes::JsonbType;
use header::Window;
use refusal::Refusal;
use value::{Value, View};

// Whether values of a type stand in their entry.
pub fn is_inlined(t: JsonbType, large: bool) -> bool
    ensures { result ≡ is_inlined t large }
{
    match t {
        JsonbType::Literal | JsonbType::Int16 | JsonbType::Uint16 => true,
        JsonbType::Int32 | JsonbType::Uint32 => large,
        _ => false,
    }
}

// The value of entry i.
#[tactic(auto, unfolding(crate::specs::Entries::entry_read, crate::specs::Entries::entry_at, crate::specs::Entries::typed_entry, crate::specs::Entries::pointed_at))]
pub fn read_entry(doc: &[u8], v: View, i: u32) -> Result<Value, Refusal>
    ensures { result ≡ entry_read doc.now v i }
{
    let k = v.kind;
    let start = v.start as usize;
    let end = start + v.size as usize;
    let place = value_place(v, i);
    let body = place + 1;
    let next = body + k.offset_size();
    Window::new(doc, next, end)?;
    let t = JsonbType::try_from(doc[place])?;
    if is_inlined(t, k.large) {
        return content::value_at(doc, t, body, next);
    }
    let at = start + layout::offset_at(doc, k, body, end) as usize;
    if at < next || end < at {
        return Err(Refusal::Pointer);
    }
    content::value_at(doc, t, at, end)
}

// Where value entry i stands.
pub fn value_place(v: View, i: u32) -> usize
    ensures value { result ≡ place_at v i }
    ensures upper_bound { result < 73014444032 }
{
    v.start as usize + v.kind.value_place(v.count, i)
}
