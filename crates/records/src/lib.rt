// Decimals as twelve numbers in a lent slice, for programs in other languages. What stores one returns a refusal's number, or 0, and stores the numbers at the
// front; a slice that is too short is refused by 25, and a refusal changes nothing.
#![tactic(auto)]

ghost use Rattle.std.specs.Prelude.{◌≡◌};
ghost use Rattle.lent.specs.Layout.{Relays};
ghost use Rattle.refusal.specs.Told.{told_by};
ghost use Rattle.records.specs.Records.{decimal_by, record_numbers, record_told};

use decimal::Decimal;
use refusal::Refusal;

// The decimal of twelve numbers; of fewer the record of no digits, which is no decimal.
#[tactic(auto, unfolding(crate::specs::Records::decimal_by, crate::specs::Records::decimal_in))]
pub fn decimal_in(xs: &[u32]) -> Decimal
    ensures { result ≡ decimal_by xs.now }
{
    let mut groups = [0u32; 9];
    if xs.len() < 12 {
        return Decimal {
            intg: 0,
            frac: 0,
            sign: false,
            groups,
        };
    }
    groups.copy_from_slice(&xs[3..12]);
    Decimal {
        intg: xs[0] as usize,
        frac: xs[1] as usize,
        sign: xs[2] != 0,
        groups,
    }
}

fn record_numbers(d: Decimal) -> [u32; 12]
    ensures { result ≡ record_numbers d }
{
    let mut numbers = [0u32; 12];
    numbers[0] = (d.intg % 4294967296) as u32;
    numbers[1] = (d.frac % 4294967296) as u32;
    numbers[2] = u32::from(d.sign);
    numbers[3..].copy_from_slice(&d.groups);
    numbers
}

#[tactic(auto, unfolding(crate::specs::Records::record_told))]
fn record_row(a: Result<Decimal, Refusal>) -> Result<[u32; 12], Refusal>
    ensures { told_by (λ numbers. numbers) result ≡ record_told a }
{
    Ok(record_numbers(a?))
}

// A decimal that is answered, or a refusal: twelve numbers.
pub fn put_answer(answer: &mut [u32], a: Result<Decimal, Refusal>) -> u32
    ensures { Relays 12 (record_told a) answer.old result answer.new }
{
    lent::relay(answer, record_row(a))
}
