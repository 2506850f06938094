// How many digits and bytes each group has.
ghost use Rattle.std.specs.Prelude.{◌≡◌, ◌<◌, ◌≤◌};
ghost use Rattle.groups.specs.Layout.{width, power_of};
ghost use Rattle.groups.specs.Sides.{sides_of};
ghost use Rattle.groups.specs.Read.{in_range};
ghost use Rattle.groups.specs.Write.{told, size_of};

use refusal::Refusal;

const POWERS_10: [u32; 10] = [
    1, 10, 100, 1000, 10000, 100000, 1000000, 10000000, 100000000, 1000000000,
];

// A group of d digits takes half as many bytes as digits, rounded up, since two digits fit a byte, and never more than four, since four
// bytes hold nine digits (2^32 is above 10^9). So every number below 10^d fits: `fits` in proofs/Widths.antt. Three bytes would hold
// seven digits too, but not the bit of the sign, which the first group has beside them (`no-fewer` there).
#[tactic(auto, unfolding(crate::specs::Layout::width))]
fn width_of(d: usize) -> usize
    requires { d ≤ 9 }
    ensures { (result ≡ width d) × (result ≤ 4) }
{
    d.div_ceil(2).min(4)
}

// 10 to the d, for the digits that a group can have, and 0 above.
#[tactic(auto, unfolding(crate::specs::Layout::power_of))]
pub fn power(d: usize) -> u32
    ensures { result ≡ power_of d }
{
    if d <= 9 { POWERS_10[d] } else { 0 }
}

// The places of a decimal: the integral digits that fill no whole group, if there are any, have the place 0; then come the whole groups
// of both sides, from the place `first` on and before `last`, those of the fraction from `point` on; at `last` stand the digits of the
// fraction that fill none. `lead` and `tail` count the digits of the two rests; without a tail `last` is the place after the last group.
// The bytes of the two rests are `front` and `back`, and those of all groups `size`.
#[derive(Clone, Copy)]
pub struct Sides {
    pub size: usize,
    pub lead: usize,
    pub front: usize,
    pub first: usize,
    pub point: usize,
    pub last: usize,
    pub tail: usize,
    pub back: usize,
}

// The sides of any numbers of digits. The size is that of a decimal where there is one of so many digits.
#[tactic(auto, unfolding(crate::specs::Layout::width, crate::specs::Layout::groups_of))]
pub fn sides_of(intg: usize, frac: usize) -> Sides
    ensures { result ≡ sides_of intg frac }
{
    let q = intg / 9;
    let z = frac / 9;
    let lead = intg % 9;
    let tail = frac % 9;
    let first = if lead == 0 { 0 } else { 1 };
    let point = first + q;
    let front = width_of(lead);
    let back = width_of(tail);
    let whole = width_of(9);
    Sides {
        size: front + whole * (q + z) + back,
        lead,
        front,
        first,
        point,
        last: point + z,
        tail,
        back,
    }
}

// Whether there are decimals of this precision and scale.
#[tactic(auto, unfolding(crate::specs::Read::in_range))]
pub fn accepted(p: usize, s: usize) -> bool
    ensures { result ≡ in_range p s }
{
    p <= 65 && s <= 30 && s <= p
}

// The packed size of a precision and a scale.
#[tactic(auto, unfolding(crate::specs::Write::size_of))]
pub fn size(precision: usize, scale: usize) -> Result<usize, Refusal>
    ensures { told result ≡ size_of precision scale }
{
    if !accepted(precision, scale) {
        return Err(Refusal::Range);
    }
    Ok(sides_of(precision - scale, scale).size)
}
