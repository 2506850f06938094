// The length field of strings and opaque values, at a place of a document and never past an end.
#![tactic(auto)]

ghost use Rattle.std.specs.Prelude.{◌≡◌, ◌<◌, ◌≤◌, length, IfOk};
ghost use Rattle.length_field.specs.Length.{length_at};

use refusal::Refusal;

// What a length field says: the length, and the place past the field.
#[derive(Clone, Copy, Debug, PartialEq, Eq)]
pub struct Length {
    pub length: u32,
    pub next: usize,
}

// Group by group: `low` is what the k groups passed hold, and `unit` what the next one counts.
#[inline(never)]
fn grouped(doc: &[u8], at: usize, end: usize) -> Result<Length, Refusal>
    ensures value { result ≡ length_at doc.now at end }
    ensures within { IfOk result (λ f. (at < f.next) × (f.next ≤ end) × (f.next ≤ length doc.now)) }
{
    let left = raw::left(doc, at, end);
    let mut low: u64 = 0;
    let mut unit: u64 = 1;
    for k in 0..5 {
        if left <= k {
            return Err(Refusal::Cut);
        }
        let b = u64::from(doc[at + k]);
        if b < 128 {
            let length = u32::try_from(low + unit * b).map_err(|_| Refusal::Length)?;
            return Ok(Length {
                length,
                next: at + k + 1,
            });
        }
        low += unit * (b - 128);
        unit *= 128;
    }
    Err(Refusal::Length)
}

// Most fields have one byte, which takes nine instructions more in the loop. Always inlined: their answer would go through memory.
#[inline(always)]
#[tactic(auto, using(crate::proofs::Fields::one))]
pub fn length_at(doc: &[u8], at: usize, end: usize) -> Result<Length, Refusal>
    ensures value { result ≡ length_at doc.now at end }
    ensures within { IfOk result (λ f. (at < f.next) × (f.next ≤ end) × (f.next ≤ length doc.now)) }
{
    if 0 < raw::left(doc, at, end) && doc[at] < 128 {
        return Ok(Length {
            length: u32::from(doc[at]),
            next: at + 1,
        });
    }
    grouped(doc, at, end)
}
