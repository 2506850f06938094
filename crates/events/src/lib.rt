// One event of the walk: what it says of a value, and for how many of them a lent list has room.
#![tactic(auto)]

ghost use Rattle.std.specs.Prelude.{◌≡◌, ◌+◌, ◌*◌, ◌≤◌, length};
ghost use Rattle.events.specs.Events.{kind_code, code_of, bytes_of, bytes_from, scalar_part, part_of, scalar_extra, extra_of, event_of, numbers, wide};
ghost use Rattle.events.specs.Lay.{put, room};

use codes::JsonbType;
use layout::Kind;
use refusal::Refusal;
use value::{Scalar, Span, Value};

// How many numbers an event has.
pub const WIDE: usize = 9;

// An event: the type code, the depth, the position, the key's bytes, the value's bytes, a count or a column type, and the index of the container's event.
#[derive(Clone, Copy, Debug, PartialEq, Eq)]
pub struct Event {
    pub code: u32,
    pub depth: u32,
    pub position: u32,
    pub key: Span,
    pub part: Span,
    pub extra: u32,
    pub parent: u32,
}

// Where a value stands: its path's length and last position, the index of its container's event, its entry's place, its key, and its own first byte.
#[derive(Clone, Copy, Debug, PartialEq, Eq)]
pub struct Spot {
    pub depth: u32,
    pub position: u32,
    pub parent: u32,
    pub place: usize,
    pub key: Span,
    pub from: u32,
}

// Where a walk stops: the refusal, its place, and how many events were listed. A walk that is done gives their count alone.
#[derive(Clone, Copy, Debug, PartialEq, Eq)]
pub struct Stopped {
    pub refusal: Refusal,
    pub place: usize,
    pub count: usize,
}

#[tactic(auto, unfolding(crate::specs::Events::kind_code))]
fn kind_code(k: Kind) -> u32
    ensures { result ≡ kind_code k }
{
    match (k.object, k.large) {
        (true, false) => 0,
        (true, true) => 1,
        (false, false) => 2,
        (false, true) => 3,
    }
}

// The type code of a value.
fn code_of(x: Value) -> u32
    ensures { result ≡ code_of x }
{
    match x {
        Value::Scalar(t, _) => u32::from(t.code()),
        Value::Container(v) => kind_code(v.kind),
    }
}

fn bytes_of(t: JsonbType) -> u32
    ensures { result ≡ bytes_of t }
{
    match t {
        JsonbType::Literal => 1,
        JsonbType::Int16 | JsonbType::Uint16 => 2,
        JsonbType::Int32 | JsonbType::Uint32 => 4,
        JsonbType::Int64 | JsonbType::Uint64 | JsonbType::Double => 8,
        _ => 0,
    }
}

#[tactic(auto, unfolding(crate::specs::Events::bytes_from))]
fn bytes_from(t: JsonbType, from: u32) -> Span
    ensures { result ≡ bytes_from t from }
{
    if from == 0 {
        return Span { start: 0, len: 0 };
    }
    Span {
        start: from,
        len: bytes_of(t),
    }
}

// The bytes that an event shows of a value.
fn part_of(x: Value, from: u32) -> Span
    ensures { result ≡ part_of x from }
{
    match x {
        Value::Scalar(_, Scalar::String(p) | Scalar::Opaque(_, p)) => p,
        Value::Scalar(t, _) => bytes_from(t, from),
        Value::Container(v) => Span {
            start: v.start,
            len: v.size,
        },
    }
}

// A container's count, an opaque value's column type, or 0.
fn extra_of(x: Value) -> u32
    ensures { result ≡ extra_of x }
{
    match x {
        Value::Container(v) => v.count,
        Value::Scalar(_, Scalar::Opaque(c, _)) => u32::from(c.code()),
        Value::Scalar(..) => 0,
    }
}

impl Event {
    // The event of a value that stands at a spot.
    pub fn new(s: Spot, x: Value) -> Event
        ensures { result ≡ event_of s x }
    {
        Event {
            code: code_of(x),
            depth: s.depth,
            position: s.position,
            key: s.key,
            part: part_of(x, s.from),
            extra: extra_of(x),
            parent: s.parent,
        }
    }

    // Lays it into a list as the n-th event.
    #[tactic(auto, using(crate::proofs::Cases::put_stores))]
    pub fn put(self, out: &mut [u32], n: usize)
        requires { wide * n + wide ≤ length out.old }
        ensures { out.new ≡ put out.old n self }
    {
        let at = WIDE * n;
        out[at] = self.code;
        out[at + 1] = self.depth;
        out[at + 2] = self.position;
        out[at + 3] = self.key.start;
        out[at + 4] = self.key.len;
        out[at + 5] = self.part.start;
        out[at + 6] = self.part.len;
        out[at + 7] = self.extra;
        out[at + 8] = self.parent;
    }
}

// How many events a list has room for.
#[tactic(auto, unfolding(crate::specs::Lay::room))]
pub fn room_in(out: &[u32]) -> usize
    ensures { result ≡ room out.now }
{
    (out.len() / WIDE).min(4294967295)
}
