// What comes before any entry of a container is looked at, and the item that is read where there is one.
#![tactic(auto)]

ghost use Rattle.std.specs.Prelude.{◌≡◌, Result};
ghost use Rattle.gate.specs.Said.{Said, read_said, said};
ghost use Rattle.gate.specs.Before.{matches, gate_of, gated};

use refusal::Refusal;
use value::View;

// Whether a view is that of a whole container in the bytes handed in.
#[tactic(auto, unfolding(crate::specs::Before::matches))]
pub fn is_whole(doc: &[u8], v: View) -> bool
    ensures { result ≡ matches doc.now v }
{
    match header::header_at(doc, v.kind, v.start as usize, doc.len()) {
        Ok(header) => header.count == v.count && header.size == v.size,
        Err(_) => false,
    }
}

// Whether there is an entry to look at, or nothing at or past the count: `asked` says whether the view is of the kind that was asked.
#[tactic(auto, unfolding(crate::specs::Before::gate_of))]
pub fn gate_at(doc: &[u8], v: View, asked: bool, i: u32) -> Result<bool, Refusal>
    ensures { result ≡ gate_of doc.now v asked i }
{
    if 16777216 < doc.len() {
        return Err(Refusal::Document);
    }
    if !asked || !is_whole(doc, v) {
        return Err(Refusal::View);
    }
    Ok(i < v.count)
}

// What is read of entry i where there is one, and nothing at or past the count.
#[tactic(auto, using(crate::proofs::Gates::gated_by))]
pub fn item_at<T, F: FnOnce() -> Result<T, Refusal>>(
    doc: &[u8],
    v: View,
    asked: bool,
    i: u32,
    read: F,
) -> Result<Option<T>, Refusal>
    requires { F.IsAlwaysCallable read }
    ensures { (x : Said T) → ((r : Result T Refusal) → F.post read r → read_said r ≡ x) → said result ≡ gated doc.now v asked i x }
{
    if !gate_at(doc, v, asked, i)? {
        return Ok(None);
    }
    read().map(Some)
}
