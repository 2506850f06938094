// The packed form of a decimal, read to its groups: the integral rest, the whole groups of both sides, the rest of the fraction.
#![tactic(auto)]

ghost use Rattle.std.specs.Prelude.{◌≡◌, ◌+◌, ◌*◌, ◌^◌, ◌<◌, ◌≤◌, length, take, drop};
ghost use Rattle.groups.specs.Numbers.{number};
ghost use Rattle.groups.specs.Layout.{size, form_of};
ghost use Rattle.groups.specs.Sides.{sides_of};
ghost use Rattle.groups.specs.Packed.{digits_in};
ghost use Rattle.groups.specs.Read.{groups_in, read_groups};
ghost use Rattle.reading.specs.Course.{begins};

use groups::Sides;
use refusal::Refusal;

// The number that bytes write, highest first; four fit.
fn number_of(bytes: &[u8]) -> u32
    requires { length bytes.now ≤ 4 }
    ensures { result ≡ number 256 bytes.now }
{
    let mut x = 0;
    for b in bytes {
        x = x * 256 + u32::from(*b);
    }
    x
}

// A number of bytes with its first bit, which weighs `half`, flipped if it begins the decimal.
#[tactic(auto, unfolding(crate::specs::Course::begins, crate::specs::Course::flip_by))]
fn begun(x: u32, half: u32, at: usize) -> u32
    requires { (x < 2 * half) × (2 * half ≤ 2 ^ 32) }
    ensures { (result ≡ begins at half x) × (result < 2 * half) }
{
    if at != 0 {
        x
    } else if x < half {
        x + half
    } else {
        x - half
    }
}

// The number of a group of w bytes, of which `top` is the greatest: its first bit flipped or not, and then all bits inverted or not.
fn part_at(bytes: &[u8], at: usize, w: usize, inverted: bool) -> u32
    requires { (w ≤ 4) × (at + w ≤ length bytes.now) }
    ensures { result ≡ number 256 (take w (drop at (digits_in (form_of inverted) bytes.now))) }
{
    if w == 0 {
        return 0;
    }
    let top = u32::MAX >> (32 - 8 * w);
    let x = begun(number_of(&bytes[at..at + w]), top / 2 + 1, at);
    if inverted { top - x } else { x }
}

// The nine groups of bytes that are all there; those past the last are 0.
fn read_groups(
    bytes: &[u8],
    inverted: bool,
    intg: usize,
    frac: usize,
    s: Sides,
) -> Result<[u32; 9], Refusal>
    requires { (s ≡ sides_of intg frac) × ((intg + frac ≤ 65) × (size intg frac ≤ length bytes.now)) }
    ensures { result ≡ groups_in (form_of inverted) intg frac (digits_in (form_of inverted) bytes.now) }
{
    let mut gs = [0; 9];
    let lead = part_at(bytes, 0, s.front, inverted);
    if groups::power(s.lead) <= lead {
        return Err(Refusal::Group);
    }
    gs[0] = lead;
    let mut at = s.front;
    for k in s.first..s.last {
        let g = part_at(bytes, at, 4, inverted);
        if 1000000000 <= g {
            return Err(Refusal::Group);
        }
        gs[k] = g;
        at += 4;
    }
    // A group of nine digits holds the last digits of the fraction; it is below 10 to the 9 exactly if they are below 10 to their count.
    let tail = u64::from(part_at(bytes, at, s.back, inverted))
        * u64::from(groups::power(9 - s.tail));
    if 1000000000 <= tail {
        return Err(Refusal::Group);
    }
    gs[s.last] = tail as u32;
    Ok(gs)
}

// The groups of a decimal of this precision and scale at the front of the bytes, inverted or not; later bytes are not read.
pub fn read(
    bytes: &[u8],
    inverted: bool,
    precision: usize,
    scale: usize,
) -> Result<[u32; 9], Refusal>
    ensures { result ≡ read_groups (form_of inverted) bytes.now precision scale }
{
    if !groups::accepted(precision, scale) {
        return Err(Refusal::Range);
    }
    let intg = precision - scale;
    let s = groups::sides_of(intg, scale);
    if bytes.len() < s.size {
        return Err(Refusal::Short);
    }
    read_groups(bytes, inverted, intg, scale, s)
}
