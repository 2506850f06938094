// The groups of a decimal, printed without the digits between: the first group is printed without padding, and all others are nine wide, but for the
// last of the fraction.
#![tactic(auto)]

ghost use Rattle.std.specs.Prelude.{◌≡◌, ◌++◌, map, ◌+◌, ◌-◌, ◌*◌, ◌/◌, ◌%◌, ◌<◌, ◌≤◌, length, take, drop};
ghost use Rattle.groups.specs.Numbers.{digits};
ghost use Rattle.groups.specs.Write.{told, digits_to, room_told, room_leaves};
ghost use Rattle.groups.specs.Layout.{Digits};
ghost use Rattle.printing.specs.Print.{show, sign_text, text_of, print_told, print_leaves};
ghost use Rattle.printing.specs.Course.{nines, whole_text, whole_length, point_text, fraction_length, Significant};

use formed::Formed;
use groups::Parts;
use refusal::Refusal;

// The character of the last digit.
fn last_shown(x: u32) -> u8
    ensures { result ≡ show (x % 10) }
{
    (x % 10) as u8 + 48
}

// Prints the w lowest digits of x from `at` on. The place stands beside the output, here and below: a part of it, lent on, would be no plainer, since each
// clause says what stands before the place too.
fn put_group(out: &mut [u8], at: usize, w: usize, x: u32)
    requires { at + w ≤ length out.old }
    ensures { out.new ≡ take at out.old ++ (map show (digits 10 w x) ++ drop (at + w) out.old) }
{
    let mut rest = x;
    for i in (0..w).rev() {
        out[at + i] = last_shown(rest);
        rest /= 10;
    }
}

// Prints whole groups, from one place to another, from `at` on, and returns the place after them.
fn put_nines(out: &mut [u8], at: usize, groups: &[u32; 9], from: usize, to: usize) -> usize
    requires from_le_to { (from ≤ to) × (to ≤ 9) }
    requires from_in_bounds { at + 9 * (to - from) ≤ length out.old }
    ensures value { result ≡ at + 9 * (to - from) }
    ensures out_after { out.new ≡ take at out.old ++ (map show (nines groups.now from (to - from)) ++ drop result out.old) }
{
    let mut p = at;
    for k in from..to {
        put_group(out, p, 9, groups[k]);
        p += 9;
    }
    p
}

// How many digits a group has, without the zeros at its front.
fn significant(g: u32) -> usize
    requires { g < 1000000000 }
    ensures { Significant result g }
{
    match g.checked_ilog10() {
        None => 1,
        Some(k) => k as usize + 1,
    }
}

// Prints the sign, and returns the place after it.
fn put_sign(out: &mut [u8], sign: bool) -> usize
    requires { length (sign_text sign) ≤ length out.old }
    ensures value { (result ≡ length (sign_text sign)) × (result ≤ 1) }
    ensures out_after { out.new ≡ sign_text sign ++ drop result out.old }
{
    if sign {
        out[0] = b'-';
        return 1;
    }
    0
}

// Prints n integral groups from `at` on, the first of them w digits wide, and returns the place after them.
fn put_whole(out: &mut [u8], at: usize, n: usize, w: usize, groups: &[u32; 9]) -> usize
    requires n_bound { n ≤ 9 }
    requires w_in_bounds { at + whole_length n w ≤ length out.old }
    ensures value { result ≡ at + whole_length n w }
    ensures out_after { out.new ≡ take at out.old ++ (whole_text n w groups.now ++ drop result out.old) }
{
    if n == 0 {
        out[at] = b'0';
        return at + 1;
    }
    put_group(out, at, w, groups[0]);
    put_nines(out, at + w, groups, 1, n)
}

// Prints a fraction, whose groups begin at place n, from `at` on, and returns the place after it.
fn put_fraction(out: &mut [u8], at: usize, n: usize, frac: usize, groups: &[u32; 9]) -> usize
    requires frac_bound { (n + (frac + 8) / 9 ≤ 9) × (frac ≤ 30) }
    requires frac_in_bounds { at + fraction_length frac ≤ length out.old }
    ensures value { result ≡ at + fraction_length frac }
    ensures out_after { out.new ≡ take at out.old ++ (point_text n frac groups.now ++ drop result out.old) }
{
    if frac == 0 {
        return at;
    }
    out[at] = b'.';
    let m = (frac - 1) / 9;
    let b = put_nines(out, at + 1, groups, n, n + m);
    let d = frac - 9 * m;
    put_group(out, b, d, groups[n + m] / groups::power(9 - d));
    b + d
}

// How many characters n integral groups have.
#[tactic(auto, unfolding(crate::specs::Course::whole_length))]
fn whole_len(n: usize, w: usize) -> usize
    requires { (n ≤ 9) × (w ≤ 9) }
    ensures { (result ≡ whole_length n w) × (result ≤ 81) }
{
    if n == 0 { 1 } else { w + 9 * (n - 1) }
}

// How many characters a fraction has, its point among them.
#[tactic(auto, unfolding(crate::specs::Course::fraction_length))]
fn fraction_len(frac: usize) -> usize
    requires { frac ≤ 30 }
    ensures { (result ≡ fraction_length frac) × (result ≤ frac + 1) }
{
    if frac == 0 { 0 } else { frac + 1 }
}

// How many characters a text has whose integral digits have so many.
#[tactic(auto, unfolding(crate::specs::Course::fraction_length))]
fn text_len(sign: bool, whole: usize, frac: usize) -> usize
    requires { (whole ≤ 81) × (frac ≤ 30) }
    ensures { result ≡ length (sign_text sign) + (whole + fraction_length frac) }
{
    let n = whole + fraction_len(frac);
    if sign { 1 + n } else { n }
}

// Prints a decimal to the front of the output, and counts the characters. A refusal changes nothing.
fn print_well(out: &mut [u8], d: Formed<'_>) -> Result<usize, Refusal>
    ensures result_value { told result ≡ room_told (text_of d.entry.parts.now.negative d.entry.parts.now.intg d.entry.parts.now.frac (digits_to Digits d.entry.parts.now.intg d.entry.parts.now.frac d.entry.parts.now.groups 9)) out.old }
    ensures out_after { out.new ≡ room_leaves (text_of d.entry.parts.now.negative d.entry.parts.now.intg d.entry.parts.now.frac (digits_to Digits d.entry.parts.now.intg d.entry.parts.now.frac d.entry.parts.now.groups 9)) out.old }
{
    let p = d.parts;
    let n = p.intg.div_ceil(9);
    let w = significant(p.groups[0]);
    let size = text_len(p.negative, whole_len(n, w), p.frac);
    if out.len() < size {
        return Err(Refusal::Room);
    }
    let a = put_sign(out, p.negative);
    let b = put_whole(out, a, n, w, &p.groups);
    Ok(put_fraction(out, b, n, p.frac, &p.groups))
}

// Prints the groups of a decimal to the front of the output, and counts the characters. A refusal changes nothing.
#[tactic(auto, unfolding(crate::specs::Print::print_told, crate::specs::Print::print_leaves))]
pub fn print(out: &mut [u8], parts: &Parts) -> Result<usize, Refusal>
    ensures result_value { told result ≡ print_told parts.now.negative parts.now.intg parts.now.frac parts.now.groups out.old }
    ensures out_after { out.new ≡ print_leaves parts.now.negative parts.now.intg parts.now.frac parts.now.groups out.old }
{
    print_well(out, Formed::new(parts)?)
}
