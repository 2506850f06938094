// The key entries of an object: the key at a position, by the object's view.
#![tactic(auto)]

ghost use Rattle.std.specs.Prelude.{◌≡◌};
ghost use Rattle.entry.specs.Entries.{key_read};

use header::Window;
use refusal::Refusal;
use value::{Span, View};

// The key of entry i.
#[tactic(auto, unfolding(entry::specs::Entries::key_read, entry::specs::Entries::key_entry_at, entry::specs::Entries::key_of))]
pub fn read_key(doc: &[u8], v: View, i: u32) -> Result<Span, Refusal>
    ensures { result ≡ key_read doc.now v i }
{
    let k = v.kind;
    let start = v.start as usize;
    let end = start + v.size as usize;
    let place = start + k.key_place(i);
    Window::new(doc, place + k.key_entry(), end)?;
    let offset = layout::offset_at(doc, k, place, end) as usize;
    let len = raw::u16_at(doc, place + k.offset_size(), end) as usize;
    if offset < k.header_size(v.count) || (v.size as usize) < offset + len {
        return Err(Refusal::Key);
    }
    Ok(Span {
        start: (start + offset) as u32,
        len: len as u32,
    })
}
