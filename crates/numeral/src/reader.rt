// From text to groups of nine digits.
ghost use Rattle.std.specs.Prelude.{◌≡◌, ◌+◌, ◌-◌, ◌*◌, ◌^◌, ◌<◌, ◌≤◌, ◌++◌, true, false, length, drop, map, MatchOption};
ghost use Rattle.groups.specs.Numbers.{number, tab};
ghost use Rattle.groups.specs.Layout.{Digits};
ghost use Rattle.groups.specs.Read.{stored_at};
ghost use Rattle.numeral.specs.Read.{strip, minus, unsigned, run, pointed, digit_of, read_unsigned, read_text, parsed};
ghost use Rattle.numeral.specs.Course.{AllDigits, Nines};

use groups::Parts;
use refusal::Refusal;

// The text once one zero is removed while it begins "00".
#[tactic(auto, unfolding(crate::specs::Read::strip))]
fn skip_zeros(text: &[u8]) -> &[u8]
    ensures { result.now ≡ strip text.now }
{
    let mut rest = text;
    while let [b'0', b'0', ..] = rest {
        rest = &rest[1..];
    }
    rest
}

// Whether there is a minus, and the text after an optional sign.
#[tactic(auto, unfolding(crate::specs::Read::minus, crate::specs::Read::unsigned))]
fn split_sign(text: &[u8]) -> (bool, &[u8])
    ensures { (result.0 ≡ minus text.now) × (result.1.now ≡ unsigned text.now) }
{
    match text {
        [b'-', rest @ ..] => (true, rest),
        [b'+', rest @ ..] => (false, rest),
        _ => (false, text),
    }
}

// How many digits the text begins with.
fn digit_run(text: &[u8]) -> usize
    ensures { (result ≡ run text.now) × (result ≤ length text.now) }
{
    text.iter().take_while(|c| c.is_ascii_digit()).count()
}

// What follows the integral digits: nothing, or a point and digits to the end. The digits, or nothing where something else stands there.
#[tactic(auto, unfolding(crate::specs::Read::pointed))]
fn fraction_of(text: &[u8]) -> Option<&[u8]>
    ensures { MatchOption result (pointed text.now ≡ false) (λ f. (pointed text.now ≡ true) × (f.now ≡ drop 1 text.now)) }
{
    match text {
        [] => Some(text),
        [b'.', digits @ ..] if digit_run(digits) == digits.len() => Some(digits),
        _ => None,
    }
}

// The number that digits write.
fn number_of(digits: &[u8]) -> u32
    requires nine { length digits.now ≤ 9 }
    requires digits { AllDigits digits.now }
    ensures { (result ≡ number 10 (map digit_of digits.now)) × (result < 10 ^ length digits.now) }
{
    let mut x = 0;
    for c in digits {
        x = x * 10 + u32::from(*c - b'0');
    }
    x
}

// Reads whole groups of nine digits, from one place to another.
fn take_nines(groups: &mut [u32; 9], from: usize, to: usize, digits: &[u8])
    requires from_le_to { (from ≤ to) × ((to ≤ 9) × (9 * (to - from) ≤ length digits.now)) }
    requires digits { AllDigits digits.now }
    ensures { Nines digits.now from to groups.old groups.new }
{
    for k in from..to {
        let at = 9 * (k - from);
        groups[k] = number_of(&digits[at..at + 9]);
    }
}

// The groups of integral digits and those of a fraction.
fn groups_in(whole: &[u8], fraction: &[u8]) -> [u32; 9]
    requires few { length whole.now + length fraction.now ≤ 65 }
    requires digits { AllDigits whole.now × AllDigits fraction.now }
    ensures { result
        ≡ tab 9 (stored_at Digits (length whole.now) (length fraction.now) (map digit_of (whole.now ++ fraction.now))) }
{
    let s = groups::sides_of(whole.len(), fraction.len());
    let mut groups = [0; 9];
    groups[0] = number_of(&whole[..s.lead]);
    take_nines(&mut groups, s.first, s.point, &whole[s.lead..]);
    take_nines(&mut groups, s.point, s.last, fraction);
    let tail = number_of(&fraction[fraction.len() - s.tail..]);
    groups[s.last] = tail * groups::power(9 - s.tail);
    groups
}

// The numeral that a text writes, after its sign.
fn read_unsigned(text: &[u8], negative: bool) -> Result<Parts, Refusal>
    ensures { result ≡ parsed (read_unsigned negative text.now) }
{
    let (whole, rest) = text.split_at(digit_run(text));
    let fraction = fraction_of(rest).ok_or(Refusal::Text)?;
    let digits = whole.len() + fraction.len();
    if digits == 0 {
        return Err(Refusal::Text);
    }
    if 65 < digits || 30 < fraction.len() {
        return Err(Refusal::Digits);
    }
    Ok(Parts {
        negative,
        intg: whole.len(),
        frac: fraction.len(),
        groups: groups_in(whole, fraction),
    })
}

// The numeral that the text writes.
#[tactic(auto, unfolding(crate::specs::Read::read_text))]
pub fn read(text: &[u8]) -> Result<Parts, Refusal>
    ensures { result ≡ parsed (read_text text.now) }
{
    let (negative, digits) = split_sign(skip_zeros(text));
    read_unsigned(digits, negative)
}
