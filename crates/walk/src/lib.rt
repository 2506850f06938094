// The walk: every path of a document, in order, as events in a lent list.
#![tactic(auto)]

ghost use Rattle.std.specs.Prelude.{◌≡◌, true, false, ◌+◌, ◌*◌, ◌-◌, ◌<◌, ◌≤◌, length, Ok, MatchResult, ⊤};
ghost use Rattle.layout.specs.Layout.{key_entry, value_place};
ghost use Rattle.content.specs.Reading.{kind};
ghost use Rattle.value.specs.declared.Value.TheVariants.{Container};
ghost use Rattle.entry.specs.Entries.{end_of, place_at, key_place_at, key_of};
ghost use Rattle.events.specs.Events.{no_key, wide};
ghost use Rattle.events.specs.Text.{text_at};
ghost use Rattle.events.specs.Lay.{lay, laid, room as room_of};
ghost use Rattle.events.specs.Walked.{walked, listed};
ghost use Rattle.sight.specs.Course.{Fit};
ghost use Rattle.paths.specs.Levels.{children};
ghost use Rattle.paths.specs.Shown.{Walks};
ghost use Rattle.walk.specs.Course.{seen_text, listed_container, container_in, entry_sight, by_sight, by_key, below};
ghost use Rattle.walk.specs.Tested.{Last, Fits};

pub use events::Stopped;
use events::{Event, WIDE};
use header::Window;
use layout::Kind;
use refusal::Refusal;
use sight::Sight;
use value::{Span, View};

// The root and elements of arrays have no key.
const NO_KEY: Span = Span { start: 0, len: 0 };

// The container whose entries are listed: its view, their depth, and the index of its event.
#[derive(Clone, Copy)]
struct Level {
    view: View,
    depth: u32,
    parent: u32,
}

fn stopped(refusal: Refusal, place: usize, count: usize) -> Stopped
    ensures { (result.refusal ≡ refusal) × ((result.place ≡ place) × (result.count ≡ count)) }
{
    Stopped {
        refusal,
        place,
        count,
    }
}

// The key of an entry that stands whole in an object. `keys::read_key` would ask for its place once more.
#[tactic(auto, using(header::proofs::Inside::le_whole, crate::proofs::Keys::object_entry), unfolding(entry::specs::Entries::key_of))]
fn key_at(w: Window<'_>, v: View) -> Result<Span, Refusal>
    requires object { v.kind.object ≡ true }
    requires whole { (w.at + key_entry v.kind ≤ w.end) × (w.end ≡ end_of v) }
    ensures { result ≡ key_of w.entry.doc.now v w.entry.at }
{
    let k = Kind {
        object: true,
        large: v.kind.large,
    };
    let offset = w.offset(k) as usize;
    let at = w.at + k.offset_size();
    let len = raw::number_of(&w.doc[at..at + 2]) as u32;
    if offset < k.header_size(v.count) || (v.size as usize) < offset + len as usize {
        return Err(Refusal::Key);
    }
    Ok(Span {
        start: (v.start as usize + offset) as u32,
        len,
    })
}

// Where a key breaks; that of the last event was tested.
fn key_check(doc: &[u8], out: &[u32], n: usize, key: Span) -> Result<(), usize>
    requires { Last doc.now out.now n }
    ensures { result ≡ text_at doc.now key }
{
    let last = WIDE * n - WIDE;
    if out[last + 3] == key.start && out[last + 4] == key.len {
        return Ok(());
    }
    texts::text_check(doc, key)
}

// Where the string breaks that is seen, if it is one; that of the last event was tested.
#[tactic(auto, unfolding(crate::specs::Course::seen_text))]
fn seen_check(doc: &[u8], out: &[u32], n: usize, x: Sight) -> Result<(), usize>
    requires { Last doc.now out.now n }
    ensures { result ≡ seen_text doc.now x }
{
    if x.code != 12 {
        return Ok(());
    }
    let Span { start, len } = x.part;
    let last = WIDE * n - WIDE;
    if out[last + 5] == start && out[last + 6] == len && out[last] == 12 {
        return Ok(());
    }
    texts::text_check(doc, Span { start, len })
}

// The container that the value of event n is, if it is one. It is read back from the list: a view in the answer of what lists an entry would go through memory
// at each entry.
#[tactic(auto, unfolding(crate::specs::Course::listed_container))]
fn container_at(out: &[u32], n: usize) -> Option<View>
    requires { wide * n + wide ≤ length out.now }
    ensures { result ≡ listed_container out.now n }
{
    let at = WIDE * n;
    let code = out[at];
    if 3 < code {
        return None;
    }
    Some(View {
        start: out[at + 5],
        size: out[at + 6],
        count: out[at + 7],
        kind: Kind {
            object: code < 2,
            large: code % 2 == 1,
        },
    })
}

// Lists an entry whose key is known and whose value stands at a place.
// (The list, the count and the room are parameters of each function here: a struct of them would be lent through memory at each level of the stack, and a clause
// would still say how the list was, how it is and what of it counts.)
#[inline(always)]
fn list_value(
    doc: &[u8],
    out: &mut [u32],
    n: usize,
    level: &Level,
    position: u32,
    key: Span,
    place: usize,
    room: usize,
) -> Result<(), Stopped>
    requires last { Last doc.now out.old n × (room ≡ room_of out.old) }
    requires known { text_at doc.now key ≡ Ok _ }
    ensures listed { by_sight doc.now level.now position key place out.old n (entry_sight doc.now level.now place) ≡ laid (listed n result) out.new }
    ensures leads { MatchResult result (λ u. listed_container out.new n ≡ container_in (entry_sight doc.now level.now place)) (λ s. ⊤) }
    ensures last { MatchResult result (λ u. Last doc.now out.new (n + 1)) (λ s. ⊤) }
{
    let v = level.view;
    // matched here: what `map_err` hands on would go through memory once more
    let x = match sight::sight_at(doc, v.kind.large, v.start, v.size, place) {
        Ok(x) => x,
        Err(refusal) => return Err(stopped(refusal, place, n)),
    };
    seen_check(doc, out, n, x).map_err(|byte| stopped(Refusal::Utf8, byte, n))?;
    if room <= n {
        return Err(stopped(Refusal::Events, place, n));
    }
    let event = Event {
        code: x.code,
        depth: level.depth,
        position,
        key,
        part: Span {
            start: x.part.start,
            len: x.part.len,
        },
        extra: x.extra,
        parent: level.parent,
    };
    event.put(out, n);
    Ok(())
}

// Lists an element of an array, which has no key.
fn list_element(
    doc: &[u8],
    out: &mut [u32],
    n: usize,
    level: &Level,
    position: u32,
    room: usize,
) -> Result<(), Stopped>
    requires array { level.now.view.kind.object ≡ false }
    requires last { Last doc.now out.old n × (room ≡ room_of out.old) }
    ensures listed { by_sight doc.now level.now position no_key (place_at level.now.view position) out.old n (entry_sight doc.now level.now (place_at level.now.view position)) ≡ laid (listed n result) out.new }
    ensures leads { MatchResult result (λ u. listed_container out.new n ≡ container_in (entry_sight doc.now level.now (place_at level.now.view position))) (λ s. ⊤) }
    ensures last { MatchResult result (λ u. Last doc.now out.new (n + 1)) (λ s. ⊤) }
{
    let v = level.view;
    let k = Kind {
        object: false,
        large: v.kind.large,
    };
    let place = v.start as usize + k.value_place(v.count, position);
    list_value(doc, out, n, level, position, NO_KEY, place, room)
}

// Where the value entry of a member stands. Never inlined: what follows from a place would be kept from turn to turn, at each level of the stack.
#[inline(never)]
fn member_place(start: usize, large: bool, count: u32, position: u32) -> usize
    requires { start ≤ 4294967295 }
    ensures { result ≡ start + value_place (kind true large) count position }
{
    let k = Kind {
        object: true,
        large,
    };
    start + k.value_place(count, position)
}

// Lists a member of an object: the key's 5, the key's 9, then the value.
fn list_member(
    doc: &[u8],
    out: &mut [u32],
    n: usize,
    level: &Level,
    position: u32,
    room: usize,
) -> Result<(), Stopped>
    requires object { level.now.view.kind.object ≡ true }
    requires fit { Fit doc.now level.now.view × (position < level.now.view.count) }
    requires last { Last doc.now out.old n × (room ≡ room_of out.old) }
    ensures listed { by_key doc.now level.now position (key_place_at level.now.view position) (place_at level.now.view position) out.old n (key_of doc.now level.now.view (key_place_at level.now.view position)) ≡ laid (listed n result) out.new }
    ensures leads { MatchResult result (λ u. listed_container out.new n ≡ container_in (entry_sight doc.now level.now (place_at level.now.view position))) (λ s. ⊤) }
    ensures last { MatchResult result (λ u. Last doc.now out.new (n + 1)) (λ s. ⊤) }
{
    let v = level.view;
    let k = Kind {
        object: true,
        large: v.kind.large,
    };
    let start = v.start as usize;
    let end = start + v.size as usize;
    let at = start + k.key_place(position);
    let key = key_at(Window { doc, at, end }, v).map_err(|refusal| stopped(refusal, at, n))?;
    key_check(doc, out, n, key).map_err(|byte| stopped(Refusal::Utf8, byte, n))?;
    let place = member_place(start, v.kind.large, v.count, position);
    list_value(doc, out, n, level, position, key, place, room)
}

// Lists the elements of an array. That arrays and objects have a walker each, which lead into each other with the levels falling, is document 01's list
// of forms.
#[cycle(walks)]
fn walk_array(
    doc: &[u8],
    out: &mut [u32],
    from: usize,
    view: &View,
    levels: u32,
    room: usize,
) -> Result<usize, Stopped>
    requires array { (levels ≤ 100) × (view.now.kind.object ≡ false) }
    requires fit { Fit doc.now view.now }
    requires last { Last doc.now out.old from × (room ≡ room_of out.old) }
    ensures listed { lay (children levels doc.now (from - 1) (Container view.now)) out.old from ≡ laid (walked result) out.new }
    ensures kept { MatchResult result (λ m. Last doc.now out.new m) (λ s. ⊤) }
{
    let view = *view;
    let level = Level {
        view,
        depth: 101 - levels,
        parent: (from - 1) as u32,
    };
    let mut n = from;
    for position in 0..view.count {
        if levels == 0 {
            return Err(stopped(Refusal::Depth, entry::value_place(view, position), n));
        }
        list_element(doc, out, n, &level, position, room)?;
        let leads = container_at(out, n);
        n = walk_below(doc, out, n + 1, leads, levels - 1, room)?;
    }
    Ok(n)
}

// Lists the members of an object.
#[cycle(walks)]
fn walk_object(
    doc: &[u8],
    out: &mut [u32],
    from: usize,
    view: &View,
    levels: u32,
    room: usize,
) -> Result<usize, Stopped>
    requires object { (levels ≤ 100) × (view.now.kind.object ≡ true) }
    requires fit { Fit doc.now view.now }
    requires last { Last doc.now out.old from × (room ≡ room_of out.old) }
    ensures listed { lay (children levels doc.now (from - 1) (Container view.now)) out.old from ≡ laid (walked result) out.new }
    ensures kept { MatchResult result (λ m. Last doc.now out.new m) (λ s. ⊤) }
{
    let view = *view;
    let level = Level {
        view,
        depth: 101 - levels,
        parent: (from - 1) as u32,
    };
    let mut n = from;
    for position in 0..view.count {
        if levels == 0 {
            return Err(stopped(Refusal::Depth, entry::value_place(view, position), n));
        }
        list_member(doc, out, n, &level, position, room)?;
        let leads = container_at(out, n);
        n = walk_below(doc, out, n + 1, leads, levels - 1, room)?;
    }
    Ok(n)
}

// Lists what is below a value that was listed. In a walker it is a test, and no call for a scalar.
#[inline(always)]
#[cycle(walks)]
fn walk_below(
    doc: &[u8],
    out: &mut [u32],
    from: usize,
    leads: Option<View>,
    levels: u32,
    room: usize,
) -> Result<usize, Stopped>
    requires fit { (levels ≤ 100) × Fits doc.now leads }
    requires last { Last doc.now out.old from × (room ≡ room_of out.old) }
    ensures listed { lay (below levels doc.now (from - 1) leads) out.old from ≡ laid (walked result) out.new }
    ensures kept { MatchResult result (λ m. Last doc.now out.new m) (λ s. ⊤) }
{
    match leads {
        Some(u) => {
            if u.kind.object {
                walk_object(doc, out, from, &u, levels, room)
            } else {
                walk_array(doc, out, from, &u, levels, room)
            }
        }
        None => Ok(from),
    }
}

// Lists every path of the document, as far as there is room: an event of nine lent numbers each.
pub fn walk(doc: &[u8], out: &mut [u32]) -> Result<usize, Stopped>
    ensures { Walks doc.now out.old (walked result) out.new }
{
    let leads = root_event::list_root(doc, out)?;
    let room = events::room_in(out);
    walk_below(doc, out, 1, leads, 100, room)
}
