// The order of decimals by value, of their signs, digits and groups.
#![tactic(auto)]

ghost use Rattle.std.specs.Prelude.{◌≡◌};
ghost use Rattle.groups.specs.Layout.{groups_of};
ghost use Rattle.order.specs.Value.{magnitude, value, told, order_z, compare_told};
ghost use Rattle.order.specs.Course.{placed, order_n};

use formed::Formed;
use groups::Parts;
use refusal::Refusal;
use std::cmp::Ordering;

// The groups at their places among seventeen, of which eight are before the point.
fn placed(d: Formed<'_>) -> [u32; 17]
    ensures { result ≡ placed (groups_of d.entry.parts.now.intg) d.entry.parts.now.groups }
{
    let mut places = [0; 17];
    let first = 8 - d.parts.intg.div_ceil(9);
    places[first..first + 9].copy_from_slice(&d.parts.groups);
    places
}

// The order of the magnitudes of two decimals: the first group where they differ decides.
fn order_of(a: Formed<'_>, b: Formed<'_>) -> Ordering
    ensures { result
        ≡ order_n (magnitude (groups_of a.entry.parts.now.intg) a.entry.parts.now.groups) (magnitude (groups_of b.entry.parts.now.intg) b.entry.parts.now.groups) }
{
    if a.parts.intg.div_ceil(9) == b.parts.intg.div_ceil(9) {
        a.parts.groups.cmp(&b.parts.groups)
    } else {
        placed(a).cmp(&placed(b))
    }
}

// The order of the values of two decimals.
fn compare_values(a: Formed<'_>, b: Formed<'_>) -> Ordering
    ensures { result ≡ order_z (value a.entry.parts.now) (value b.entry.parts.now) }
{
    match (a.parts.negative, b.parts.negative) {
        (false, false) => order_of(a, b),
        (true, true) => order_of(b, a),
        (true, false) => Ordering::Less,
        (false, true) => Ordering::Greater,
    }
}

// The order of the values of two decimals, of their parts.
#[tactic(auto, unfolding(crate::specs::Value::compare_told))]
pub fn compare(a: &Parts, b: &Parts) -> Result<Ordering, Refusal>
    ensures { told result ≡ compare_told a.now b.now }
{
    Ok(compare_values(Formed::new(a)?, Formed::new(b)?))
}
