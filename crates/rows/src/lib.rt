// Values of documents as numbers in a lent slice, for programs in other languages: the refusal's number, or 0, is returned, and the answer's numbers are stored
// at the front; a slice that is too short is refused by 25, and a refusal changes nothing.
#![tactic(auto)]

mod values;

ghost use Rattle.std.specs.Prelude.{◌≡◌};
ghost use Rattle.gate.specs.Said.{said};
ghost use Rattle.lent.specs.Layout.{Relays};
ghost use Rattle.refusal.specs.Told.{told_by};
ghost use Rattle.rows.specs.Rows.{value_numbers, value_told};

use events::{Event, Spot};
use refusal::Refusal;
use value::{Span, Value};
use values::{holds, kind_of};

fn value_numbers(x: Value) -> [u32; 5]
    ensures { result ≡ value_numbers x }
{
    let nowhere = Spot {
        depth: 0,
        position: 0,
        parent: 0,
        place: 0,
        key: Span { start: 0, len: 0 },
        from: 0,
    };
    let e = Event::new(nowhere, x);
    let held = holds(x);
    [kind_of(x), e.code, held.start, held.len, e.extra]
}

fn found_row(f: Result<Option<Value>, Refusal>) -> Result<[u32; 5], Refusal>
    ensures { told_by (λ numbers. numbers) result ≡ value_told (said f) }
{
    match f? {
        Some(x) => Ok(value_numbers(x)),
        None => Ok([0; 5]),
    }
}

// A value, nothing, or a refusal: five numbers.
pub fn put_found(answer: &mut [u32], f: Result<Option<Value>, Refusal>) -> u32
    ensures { Relays 5 (value_told (said f)) answer.old result answer.new }
{
    lent::relay(answer, found_row(f))
}
