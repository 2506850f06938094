// The packed form of a decimal, written from its groups.
#![tactic(auto)]

ghost use Rattle.std.specs.Prelude.{◌≡◌, ◌++◌, ◌+◌, ◌-◌, ◌*◌, ◌<◌, ◌≤◌, length, get_or, drop};
ghost use Rattle.groups.specs.Numbers.{digits};
ghost use Rattle.groups.specs.Layout.{size, Plain};
ghost use Rattle.groups.specs.Sides.{sides_of};
ghost use Rattle.groups.specs.Packed.{flip, flip_first};
ghost use Rattle.groups.specs.Write.{told, digits_to, write_told, write_leaves};
ghost use Rattle.groups.specs.Course.{run};
ghost use Rattle.writing.specs.Course.{laid_at, shade, shaded};

use formed::Formed;
use groups::{Parts, Sides};
use refusal::Refusal;

// Writes the w lowest bytes of a number, highest first, from a place on: each clause here says what stands before the place too, so that a part of the output, lent
// on, would be no plainer. A loop, since `to_be_bytes` and `copy_from_slice` of w bytes took twenty-five instructions more a part.
fn put_bytes(out: &mut [u8], at: usize, w: usize, x: u32)
    requires { (w ≤ 4) × (at + w ≤ length out.old) }
    ensures { out.new ≡ laid_at out.old at w (digits 256 w x) }
{
    let mut rest = x;
    for i in (0..w).rev() {
        out[at + i] = (rest % 256) as u8;
        rest /= 256;
    }
}

// The number whose bytes are those of x, inverted or not.
#[tactic(auto, unfolding(crate::specs::Course::shade))]
fn shaded_number(inverted: bool, x: u32) -> u32
    ensures { result ≡ shade inverted x }
{
    if inverted { u32::MAX - x } else { x }
}

// Writes the whole groups from one place to another, and returns the place after them.
fn put_fours(
    out: &mut [u8],
    inverted: bool,
    at: usize,
    from: usize,
    to: usize,
    groups: &[u32; 9],
) -> usize
    requires from_le_to { (from ≤ to) × (to ≤ 9) }
    requires from_in_bounds { at + 4 * (to - from) ≤ length out.old }
    ensures value { result ≡ at + 4 * (to - from) }
    ensures out_after { out.new ≡ laid_at out.old at (4 * (to - from)) (run 256 4 (λ k. shade inverted (get_or groups.now k 0)) from (to - from)) }
{
    let mut p = at;
    for k in from..to {
        put_bytes(out, p, 4, shaded_number(inverted, groups[k]));
        p += 4;
    }
    p
}

// Writes all groups: the integral rest, the whole groups of both sides, the rest of the fraction.
fn put_packed(out: &mut [u8], d: Formed<'_>, s: Sides)
    requires { (s ≡ sides_of d.parts.now.intg d.parts.now.frac) × (size d.parts.now.intg d.parts.now.frac ≤ length out.old) }
    ensures { out.new ≡ shaded d.entry.parts.now.negative (digits_to Plain d.entry.parts.now.intg d.entry.parts.now.frac d.entry.parts.now.groups 9) ++ drop (size d.entry.parts.now.intg d.entry.parts.now.frac) out.old }
{
    let inverted = d.parts.negative;
    let gs = &d.parts.groups;
    put_bytes(out, 0, s.front, shaded_number(inverted, gs[0]));
    let at = put_fours(out, inverted, s.front, s.first, s.last, gs);
    // The digits of a fraction that fill no whole group, out of the group that holds them.
    let rest = gs[s.last] / groups::power(9 - s.tail);
    put_bytes(out, at, s.back, shaded_number(inverted, rest));
}

#[tactic(auto, unfolding(groups::specs::Packed::flip_first, groups::specs::Packed::flip))]
fn flip_first(out: &mut [u8])
    requires { 0 < length out.old }
    ensures { out.new ≡ flip_first out.old }
{
    let b = out[0];
    out[0] = if b < 128 { b + 128 } else { b - 128 };
}

// Writes the groups of a decimal, inverted where it is negative, to the front of the output, and counts the bytes. A refusal changes nothing.
#[tactic(auto, unfolding(groups::specs::Write::write_told, groups::specs::Write::write_leaves))]
pub fn write(out: &mut [u8], parts: &Parts) -> Result<usize, Refusal>
    ensures result_value { told result ≡ write_told parts.now.negative parts.now.intg parts.now.frac parts.now.groups out.old }
    ensures out_after { out.new ≡ write_leaves parts.now.negative parts.now.intg parts.now.frac parts.now.groups out.old }
{
    let d = Formed::new(parts)?;
    let s = groups::sides_of(parts.intg, parts.frac);
    if out.len() < s.size {
        return Err(Refusal::Room);
    }
    put_packed(out, d, s);
    flip_first(out);
    Ok(s.size)
}
