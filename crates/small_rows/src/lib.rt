// Keys, counts and ends of walks as numbers in a lent slice, for programs in other languages. Each function returns a refusal's number, or 0, and stores the
// answer's numbers at the front; a slice that is too short is refused by 25, and a refusal changes nothing, but for a walk's, of which the count
// and the place are stored.
#![tactic(auto)]

ghost use Rattle.std.specs.Prelude.{◌≡◌};
ghost use Rattle.events.specs.Walked.{walked};
ghost use Rattle.gate.specs.Said.{read_said, said};
ghost use Rattle.lent.specs.Layout.{low, Relays};
ghost use Rattle.refusal.specs.Told.{told_by};
ghost use Rattle.small_rows.specs.SmallRows.{key_told, count_told, walked_told};

use events::Stopped;
use refusal::Refusal;
use value::Span;

fn key_row(k: Result<Option<Span>, Refusal>) -> Result<[u32; 3], Refusal>
    ensures { told_by (λ numbers. numbers) result ≡ key_told (said k) }
{
    match k? {
        Some(s) => Ok([1, s.start, s.len]),
        None => Ok([0; 3]),
    }
}

// A key, nothing, or a refusal: three numbers.
pub fn put_key(answer: &mut [u32], k: Result<Option<Span>, Refusal>) -> u32
    ensures { Relays 3 (key_told (said k)) answer.old result answer.new }
{
    lent::relay(answer, key_row(k))
}

fn count_row(c: Result<u32, Refusal>) -> Result<[u32; 1], Refusal>
    ensures { told_by (λ numbers. numbers) result ≡ count_told (read_said c) }
{
    Ok([c?])
}

// A count, or a refusal: one number.
pub fn put_count(answer: &mut [u32], c: Result<u32, Refusal>) -> u32
    ensures { Relays 1 (count_told (read_said c)) answer.old result answer.new }
{
    lent::relay(answer, count_row(c))
}

fn low(n: usize) -> u32
    ensures { result ≡ low n }
{
    (n % 4294967296) as u32
}

// How a walk ended: two numbers, of a refusal too.
#[tactic(auto, unfolding(lent::specs::Layout::returned, lent::specs::Layout::remains, lent::specs::Layout::laid))]
pub fn put_walked(answer: &mut [u32], w: Result<usize, Stopped>) -> u32
    ensures { Relays 2 (walked_told (walked w)) answer.old result answer.new }
{
    if answer.len() < 2 {
        return u32::from(Refusal::Room.number());
    }
    match w {
        Ok(count) => {
            answer[..2].copy_from_slice(&[low(count), 0]);
            0
        }
        Err(s) => {
            answer[..2].copy_from_slice(&[low(s.count), low(s.place)]);
            u32::from(s.refusal.number())
        }
    }
}
