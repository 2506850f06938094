// How an answer reaches a program in another language: its numbers at the front of a lent slice, and the refusal's number, or 0, returned.
#![tactic(auto)]

ghost use Rattle.lent.specs.Layout.{Relays};
ghost use Rattle.refusal.specs.Told.{told_by};

use refusal::Refusal;

// Stores the numbers of an answer at the front of a slice, and gives 0 or the refusal's number. A slice that is too short is refused by 25, and a refusal changes
// nothing.
#[tactic(auto, unfolding(crate::specs::Layout::returned, crate::specs::Layout::remains, crate::specs::Layout::laid))]
pub fn relay<const N: usize>(answer: &mut [u32], row: Result<[u32; N], Refusal>) -> u32
    ensures { Relays N (told_by (λ numbers. numbers) row.entry) answer.old result answer.new }
{
    if answer.len() < N {
        return u32::from(Refusal::Room.number());
    }
    match row {
        Ok(numbers) => {
            answer[..N].copy_from_slice(&numbers);
            0
        }
        Err(r) => u32::from(r.number()),
    }
}
