// What an event shows of the value in an entry: its type code, its bytes, and a count or a column type. The value itself is not made, so that a walk
// costs no more than it shows.
#![tactic(auto)]

ghost use Rattle.std.specs.Prelude.{◌≡◌, ◌≤◌};
ghost use Rattle.codes.specs.Types.{code_of as type_code};
ghost use Rattle.content.specs.Reading.{kind, container_at, literal_at, opaque_at, content_at};
ghost use Rattle.events.specs.Events.{kind_code};
ghost use Rattle.sight.specs.Sights.{sight_of, sight_at};
ghost use Rattle.sight.specs.Course.{front, plain};

use codes::{JsonbType, LiteralType};
use columns::ColumnType;
use header::Window;
use layout::Kind;
use refusal::Refusal;
use value::Span;

// What an event shows of a value.
#[derive(Clone, Copy, Debug, PartialEq, Eq)]
pub struct Sight {
    pub code: u32,
    pub part: Span,
    pub extra: u32,
}

// What shows nothing but its bytes.
fn plain(t: JsonbType, part: Span) -> Sight
    ensures { Ok result ≡ plain t (Ok part) }
{
    Sight {
        code: u32::from(t.code()),
        part,
        extra: 0,
    }
}

// So many bytes, where they are there.
#[tactic(auto, unfolding(crate::specs::Course::front))]
fn front(w: Window<'_>, len: u32) -> Result<Span, Refusal>
    ensures { result ≡ front w.entry.at w.entry.end len }
{
    if w.end - w.at < len as usize {
        return Err(Refusal::Cut);
    }
    Ok(Span {
        start: w.at as u32,
        len,
    })
}

// A container shows its size and its count.
fn container(w: Window<'_>, t: JsonbType, object: bool, large: bool) -> Result<Sight, Refusal>
    requires { type_code t ≡ kind_code (kind object large) }
    ensures { result ≡ sight_of (container_at w.entry.doc.now (kind object large) w.entry.at w.entry.end) w.entry.at }
{
    let header = w.header(Kind { object, large })?;
    Ok(Sight {
        code: u32::from(t.code()),
        part: Span {
            start: w.at as u32,
            len: header.size,
        },
        extra: header.count,
    })
}

#[tactic(auto, unfolding(content::specs::Reading::literal_at, events::specs::Events::bytes_from))]
fn literal(w: Window<'_>) -> Result<Sight, Refusal>
    requires { 1 ≤ w.at }
    ensures { result ≡ sight_of (literal_at w.entry.doc.now w.entry.at w.entry.end) w.entry.at }
{
    if w.end <= w.at {
        return Err(Refusal::Cut);
    }
    LiteralType::try_from(w.doc[w.at])?;
    Ok(plain(
        JsonbType::Literal,
        Span {
            start: w.at as u32,
            len: 1,
        },
    ))
}

#[inline(always)]
#[tactic(auto, unfolding(content::specs::Reading::opaque_at))]
fn opaque(w: Window<'_>) -> Result<Sight, Refusal>
    ensures { result ≡ sight_of (opaque_at w.entry.doc.now w.entry.at w.entry.end) w.entry.at }
{
    if w.end <= w.at {
        return Err(Refusal::Cut);
    }
    let column = ColumnType::try_from(w.doc[w.at])?;
    let part = content::part(Window {
        doc: w.doc,
        at: w.at + 1,
        end: w.end,
    })?;
    Ok(Sight {
        code: 15,
        part,
        extra: u32::from(column.code()),
    })
}

// The value of a type that stands there, which is not the document's first byte.
#[inline(always)]
#[tactic(auto, using(crate::proofs::Numbers::number_shown), unfolding(content::specs::Reading::content_at, content::specs::Reading::string_at, events::specs::Events::kind_code))]
fn shown(w: Window<'_>, t: JsonbType) -> Result<Sight, Refusal>
    requires { 1 ≤ w.at }
    ensures { result ≡ sight_of (content_at w.entry.doc.now t w.entry.at w.entry.end) w.entry.at }
{
    match t {
        JsonbType::SmallObject => container(w, t, true, false),
        JsonbType::LargeObject => container(w, t, true, true),
        JsonbType::SmallArray => container(w, t, false, false),
        JsonbType::LargeArray => container(w, t, false, true),
        JsonbType::Literal => literal(w),
        JsonbType::Int16 | JsonbType::Uint16 => Ok(plain(t, front(w, 2)?)),
        JsonbType::Int32 | JsonbType::Uint32 => Ok(plain(t, front(w, 4)?)),
        JsonbType::Int64 | JsonbType::Uint64 | JsonbType::Double => Ok(plain(t, front(w, 8)?)),
        JsonbType::String => Ok(plain(t, content::part(w)?)),
        JsonbType::Opaque => opaque(w),
    }
}

// What the value entry at a place shows, of a container with these bounds.
#[inline(always)]
#[tactic(auto, unfolding(crate::specs::Sights::sight_at, crate::specs::Sights::start_by, entry::specs::Entries::typed_entry, entry::specs::Entries::pointed_at, content::specs::Reading::read_at))]
pub fn sight_at(
    doc: &[u8],
    large: bool,
    start: u32,
    size: u32,
    place: usize,
) -> Result<Sight, Refusal>
    ensures { result ≡ sight_at doc.now large start size place }
{
    let k = Kind {
        object: false,
        large,
    };
    let start = start as usize;
    let end = start + size as usize;
    // a place too large for an entry to end is past the end of the container too
    let next = place.saturating_add(1 + k.offset_size());
    Window::new(doc, next, end)?;
    let body = place + 1;
    let t = JsonbType::try_from(doc[place])?;
    if entry::is_inlined(t, large) {
        return shown(
            Window {
                doc,
                at: body,
                end: next,
            },
            t,
        );
    }
    let at = start + Window { doc, at: body, end }.offset(k) as usize;
    if at < next || end < at {
        return Err(Refusal::Pointer);
    }
    shown(Window { doc, at, end }, t)
}
