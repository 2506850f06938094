// Which parts are those of a decimal: digits within the limits, each group below the power of its digits, the last of a fraction scaled, all others 0, and
// no sign on zero; and the sign of a decimal that is read.
#![tactic(auto)]

ghost use Rattle.std.specs.Prelude.{◌≡◌, ◌+◌, ◌≤◌, true, false, length, get_or, MatchResult};
ghost use Rattle.refusal.specs.declared.Refusal.TheVariants as refusal;
ghost use Rattle.groups.specs.Numbers.{all};
ghost use Rattle.groups.specs.Course.{capped_at};
ghost use Rattle.groups.specs.Sign.{is_nought, below_zero};
ghost use Rattle.groups.specs.Write.{digits_ok, well_at, well_groups, well_formed};

use groups::Parts;
use refusal::Refusal;

// Whether the first t groups have at most nine digits, and the others are 0. A loop, since `all` with the same tests took fifty instructions more a record.
#[tactic(auto, unfolding(groups::specs::Course::capped_at))]
fn capped(groups: &[u32; 9], t: usize) -> bool
    ensures { result ≡ all 9 (λ k. capped_at t k (get_or groups.now k 0)) }
{
    for (k, g) in groups.iter().enumerate() {
        if k < t {
            if *g >= 1000000000 {
                return false;
            }
        } else if *g != 0 {
            return false;
        }
    }
    true
}

// Only the first group can have fewer digits, and only the last a unit above 1.
fn all_well(intg: usize, frac: usize, groups: &[u32; 9]) -> bool
    requires { (1 ≤ intg + frac) × ((intg + frac ≤ 65) × (frac ≤ 30)) }
    ensures { result ≡ all 9 (λ k. well_at intg frac k (get_or groups.now k 0)) }
{
    let n = intg.div_ceil(9);
    let m = frac.div_ceil(9);
    if !capped(groups, n + m) || groups[0] >= groups::power(intg + 9 - 9 * n) {
        return false;
    }
    let rest = 9 * m - frac;
    rest == 0 || groups[n + m - 1] % groups::power(rest) == 0
}

#[tactic(auto, unfolding(groups::specs::Write::digits_ok))]
fn digits_ok(intg: usize, frac: usize) -> bool
    ensures { result ≡ digits_ok intg frac }
{
    intg <= 65 && frac <= 30 && 1 <= intg + frac && intg + frac <= 65
}

// Whether a decimal may have these digits and groups.
#[tactic(auto, using(groups::proofs::Accept::both_true), unfolding(groups::specs::Write::well_groups, groups::specs::Write::digits_ok))]
fn well_groups(parts: &Parts) -> bool
    ensures { result ≡ well_groups parts.now.intg parts.now.frac parts.now.groups }
{
    digits_ok(parts.intg, parts.frac) && all_well(parts.intg, parts.frac, &parts.groups)
}

#[tactic(auto, unfolding(groups::specs::Sign::is_nought))]
fn is_zero(groups: &[u32; 9]) -> bool
    ensures { result ≡ is_nought groups.now }
{
    groups.iter().all(|g| *g == 0)
}

// The sign of a decimal that is read with these groups, from bytes or text that say negative or not: a zero is positive.
#[tactic(auto, unfolding(groups::specs::Sign::below_zero))]
pub fn below_zero(negative: bool, groups: &[u32; 9]) -> bool
    ensures { result ≡ below_zero negative groups.now }
{
    negative && !is_zero(groups)
}

// Whether these parts are those of a decimal. Never inlined, so that its answer is a register at each caller, and no Result in memory.
#[tactic(auto, unfolding(groups::specs::Write::well_formed, groups::specs::Sign::signed_nought))]
#[inline(never)]
pub fn well_formed(parts: &Parts) -> bool
    ensures { result
        ≡ well_formed parts.now.negative parts.now.intg parts.now.frac parts.now.groups }
{
    // The sign before the groups, so that their test is the last call: the other way round it took thirty instructions more.
    if parts.negative && is_zero(&parts.groups) {
        return false;
    }
    well_groups(parts)
}

// That an array has nine elements is known of an argument, and not of a field behind a reference: so this says it.
fn nine(groups: &[u32; 9])
    ensures { length groups.now ≡ 9 }
{}

// The parts of a decimal.
#[derive(Clone, Copy)]
pub struct Formed<'a> {
    pub parts: &'a Parts,
    ghost well: { well_formed parts.now.negative parts.now.intg parts.now.frac parts.now.groups ≡ true },
    ghost nine: { length parts.now.groups ≡ 9 },
}

impl<'a> Formed<'a> {
    // The parts, where they are those of a decimal.
    pub fn new(parts: &'a Parts) -> Result<Formed<'a>, Refusal>
        ensures { MatchResult result (λ d. (d.parts.now ≡ parts.now) × (well_formed parts.now.negative parts.now.intg parts.now.frac parts.now.groups ≡ true)) (λ r. (r ≡ refusal.Record) × (well_formed parts.now.negative parts.now.intg parts.now.frac parts.now.groups ≡ false)) }
    {
        if !well_formed(parts) {
            return Err(Refusal::Record);
        }
        nine(&parts.groups);
        Ok(Formed { parts })
    }
}
