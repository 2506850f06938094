// Answers about decimals that are one number, in a lent slice, for programs in other languages: counts and orders. Each function returns a refusal's number, or 0,
// and stores the answer's number at the front; an empty slice is refused by 25, and a refusal changes nothing.
#![tactic(auto)]

ghost use Rattle.std.specs.Prelude.{◌≡◌, [], ◌∷◌};
ghost use Rattle.order.specs.Value.{number_of, told};
ghost use Rattle.refusal.specs.Told.{told_by};
ghost use Rattle.lent.specs.Layout.{Relays};
ghost use Rattle.small_records.specs.SmallRecords.{counted_told};

use refusal::Refusal;
use std::cmp::Ordering;

fn counted_row(c: Result<usize, Refusal>) -> Result<[u32; 1], Refusal>
    ensures { told_by (λ numbers. numbers) result ≡ counted_told c }
{
    Ok([(c? % 4294967296) as u32])
}

// A count of bytes or characters, or a refusal: one number.
pub fn put_counted(answer: &mut [u32], c: Result<usize, Refusal>) -> u32
    ensures { Relays 1 (counted_told c) answer.old result answer.new }
{
    lent::relay(answer, counted_row(c))
}

fn order_row(c: Result<Ordering, Refusal>) -> Result<[u32; 1], Refusal>
    ensures { told_by (λ numbers. numbers) result ≡ told c }
{
    Ok(match c? {
        Ordering::Less => [0],
        Ordering::Equal => [1],
        Ordering::Greater => [2],
    })
}

// The order of two decimals, 0 less, 1 equal, 2 greater, or a refusal: one number.
pub fn put_compared(answer: &mut [u32], c: Result<Ordering, Refusal>) -> u32
    ensures { Relays 1 (told c) answer.old result answer.new }
{
    lent::relay(answer, order_row(c))
}
