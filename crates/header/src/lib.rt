// A place of a document with an end that it has, and the header of a container there. Positions are absolute in the document; `end` is the end of the
// enclosing container.
#![tactic(auto)]

ghost use Rattle.std.specs.Prelude.{◌≡◌, ◌+◌, ◌≤◌, length, MatchResult, Ok, Err};
ghost use Rattle.layout.specs.Layout.{offset_size, offset_at};
ghost use Rattle.header.specs.Headers.{header_at, place_of, header_read};

use layout::Kind;
use refusal::Refusal;

// What a container's header says.
#[derive(Clone, Copy, Debug, PartialEq, Eq, Hash)]
pub struct Header {
    pub count: u32,
    pub size: u32,
}

// A place and an end within a document that is not too long.
#[derive(Clone, Copy)]
pub struct Window<'a> {
    pub doc: &'a [u8],
    pub at: usize,
    pub end: usize,
    ghost ordered: { at ≤ end },
    ghost inside: { end ≤ length doc.now },
    ghost short: { length doc.now ≤ 16777216 },
}

impl<'a> Window<'a> {
    // The place and the end, where the document has them.
    #[tactic(auto, unfolding(crate::specs::Headers::place_of))]
    pub fn new(doc: &'a [u8], at: usize, end: usize) -> Result<Window<'a>, Refusal>
        ensures placed { MatchResult result (λ p. (p.doc.now ≡ doc.now) × (p.at ≡ at) × (p.end ≡ end) × (place_of doc.now at end ≡ Ok _)) (λ r. place_of doc.now at end ≡ Err r) }
    {
        if 16777216 < doc.len() {
            return Err(Refusal::Document);
        }
        if doc.len() < end || end < at {
            return Err(Refusal::Cut);
        }
        Ok(Window { doc, at, end })
    }

    // The offset, count or size at the place, which stands whole before the end: one load.
    #[tactic(auto, using(crate::proofs::Inside::le_whole), unfolding(layout::specs::Layout::offset_size, layout::specs::Layout::offset_at))]
    pub fn offset(self, k: Kind) -> u32
        requires { self.at + offset_size k ≤ self.end }
        ensures { result ≡ offset_at self.entry.doc.now k self.entry.at self.entry.end }
    {
        if k.large {
            return raw::number_of(&self.doc[self.at..self.at + 4]) as u32;
        }
        raw::number_of(&self.doc[self.at..self.at + 2]) as u32
    }

    // Count and size, where both and the header fit.
    #[tactic(auto, unfolding(crate::specs::Headers::header_at))]
    pub fn header(self, k: Kind) -> Result<Header, Refusal>
        ensures { result ≡ header_at self.entry.doc.now k self.entry.at self.entry.end }
    {
        let left = self.end - self.at;
        let w = k.offset_size();
        if left < 2 * w {
            return Err(Refusal::Cut);
        }
        let count = self.offset(k);
        let size = Window {
            doc: self.doc,
            at: self.at + w,
            end: self.end,
        }
        .offset(k);
        let whole = size as usize;
        if left < whole || whole < k.header_size(count) {
            return Err(Refusal::Size);
        }
        Ok(Header { count, size })
    }
}

// Count and size of a container of a kind at a place, up to an end.
#[tactic(auto, unfolding(crate::specs::Headers::header_read))]
pub fn header_at(doc: &[u8], k: Kind, at: usize, end: usize) -> Result<Header, Refusal>
    ensures { result ≡ header_read doc.now k at end }
{
    Window::new(doc, at, end)?.header(k)
}
