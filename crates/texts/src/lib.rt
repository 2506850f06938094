// The text test of a document's keys and strings.
#![tactic(auto)]

ghost use Rattle.std.specs.Prelude.{◌≡◌};
ghost use Rattle.events.specs.Text.{text_at};

use value::Span;

// Whether a part of the document is UTF-8, and where it breaks, counted from the document's first byte: at the first byte that cannot begin or continue a
// character, or at its end where a character is cut there. A part that ends past the document breaks at its start.
pub fn text_check(doc: &[u8], s: Span) -> Result<(), usize>
    ensures { result ≡ text_at doc.now s }
{
    let start = s.start as usize;
    let end = start + s.len as usize;
    if doc.len() < end {
        return Err(start);
    }
    match utf8::utf8_check(&doc[start..end]) {
        Ok(()) => Ok(()),
        Err(e) => Err(start + e.place),
    }
}
