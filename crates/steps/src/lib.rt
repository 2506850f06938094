// Iteration over a container: a place by value, and a step that gives the item and the place that follows.
#![tactic(auto)]

ghost use Rattle.std.specs.Prelude.{◌≡◌, not, Result};
ghost use Rattle.entry.specs.Entries.{entry_read, key_read};
ghost use Rattle.gate.specs.Said.{Said, read_said, said};
ghost use Rattle.gate.specs.Before.{gated};
ghost use Rattle.steps.specs.Steps.{is_open, after, member_of, element_item, key_item, member_item};

use refusal::Refusal;
use value::{Span, Value, View};

// The three places have the same fields and stay three types, as document 01's list of forms has them: the type says what a step reads, which one type
// would need a marker for.

// A place in an iteration over the elements of an array.
#[derive(Clone, Copy, Debug, PartialEq, Eq)]
pub struct Elements {
    pub view: View,
    pub at: u32,
}

// A place in an iteration over the keys of an object.
#[derive(Clone, Copy, Debug, PartialEq, Eq)]
pub struct Keys {
    pub view: View,
    pub at: u32,
}

// A place in an iteration over the members of an object.
#[derive(Clone, Copy, Debug, PartialEq, Eq)]
pub struct Members {
    pub view: View,
    pub at: u32,
}

// A member: its key and its value.
#[derive(Clone, Copy, Debug)]
pub struct Member {
    pub key: Span,
    pub value: Value,
}

// A step: the item at a place, nothing at or past the count, or a refusal; and the place that follows.
#[derive(Clone, Copy)]
pub struct Step<T, P> {
    pub item: Result<Option<T>, Refusal>,
    pub next: P,
}

// What is read at a position of a view, where there is an entry of the kind that was asked; and the position that follows.
#[tactic(auto, using(gate::proofs::Gates::gated_by, crate::proofs::Cases::open_by, crate::proofs::Cases::below))]
fn step_at<T, F: FnOnce() -> Result<T, Refusal>>(
    doc: &[u8],
    v: View,
    asked: bool,
    at: u32,
    read: F,
) -> Step<T, u32>
    requires { F.IsAlwaysCallable read }
    ensures item { (x : Said T) → ((r : Result T Refusal) → F.post read r → read_said r ≡ x) → said result.item ≡ gated doc.now v asked at x }
    ensures next { result.next ≡ after (is_open doc.now v asked at) at }
{
    match gate::gate_at(doc, v, asked, at) {
        Ok(true) => Step {
            item: read().map(Some),
            next: at + 1,
        },
        Ok(false) => Step {
            item: Ok(None),
            next: at,
        },
        Err(refusal) => Step {
            item: Err(refusal),
            next: at,
        },
    }
}

impl Elements {
    // The element at this place, and the place that follows.
    #[tactic(auto, using(gate::proofs::Gates::entry_gated), unfolding(crate::specs::Steps::element_item))]
    pub fn next(self, doc: &[u8]) -> Step<Value, Elements>
        ensures item_value { said result.item ≡ element_item doc.now self.view self.at }
        ensures view_value { (result.next.view ≡ self.view) × (result.next.at ≡ after (is_open doc.now self.view (not self.view.kind.object) self.at) self.at) }
    {
        let Elements { view, at } = self;
        let Step { item, next } = step_at(
            doc,
            view,
            !view.kind.object,
            at,
            || entry::read_entry(doc, view, at),
        );
        Step {
            item,
            next: Elements { view, at: next },
        }
    }
}

impl Keys {
    // The key at this place, and the place that follows.
    #[tactic(auto, using(gate::proofs::Gates::key_gated), unfolding(crate::specs::Steps::key_item))]
    pub fn next(self, doc: &[u8]) -> Step<Span, Keys>
        ensures item_value { said result.item ≡ key_item doc.now self.view self.at }
        ensures view_value { (result.next.view ≡ self.view) × (result.next.at ≡ after (is_open doc.now self.view self.view.kind.object self.at) self.at) }
    {
        let Keys { view, at } = self;
        let Step { item, next } = step_at(
            doc,
            view,
            view.kind.object,
            at,
            || keys::read_key(doc, view, at),
        );
        Step {
            item,
            next: Keys { view, at: next },
        }
    }
}

// Member i: its key's fault comes before its value's.
fn read_member(doc: &[u8], v: View, i: u32) -> Result<Member, Refusal>
    ensures { read_said result ≡ member_of (read_said (key_read doc.now v i)) (read_said (entry_read doc.now v i)) }
{
    Ok(Member {
        key: keys::read_key(doc, v, i)?,
        value: entry::read_entry(doc, v, i)?,
    })
}

impl Members {
    // The member at this place, and the place that follows.
    #[tactic(auto, using(crate::proofs::Cases::member_is))]
    pub fn next(self, doc: &[u8]) -> Step<Member, Members>
        ensures item_value { said result.item ≡ member_item doc.now self.view self.at }
        ensures view_value { (result.next.view ≡ self.view) × (result.next.at ≡ after (is_open doc.now self.view self.view.kind.object self.at) self.at) }
    {
        let Members { view, at } = self;
        let Step { item, next } = step_at(
            doc,
            view,
            view.kind.object,
            at,
            || read_member(doc, view, at),
        );
        Step {
            item,
            next: Members { view, at: next },
        }
    }
}
