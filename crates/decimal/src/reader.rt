// From groups to a decimal.
ghost use Rattle.std.specs.Prelude.{◌≡◌};
ghost use Rattle.decimal.specs.Read.{negative as is_negative, decimal_of, or_nought, finished};

use super::Decimal;
use groups::Parts;

#[tactic(auto, unfolding(crate::specs::Read::negative))]
pub(crate) fn is_negative(bytes: &[u8]) -> bool
    ensures { result ≡ is_negative bytes.now }
{
    matches!(bytes, [first, ..] if *first < 128)
}

// The decimal with these parts, read with a minus or without: a zero is positive.
#[tactic(auto, unfolding(crate::specs::Read::decimal_of))]
pub(crate) fn decimal_of(parts: Parts) -> Decimal
    ensures { result ≡ decimal_of parts.intg parts.frac parts.negative parts.groups }
{
    Decimal {
        intg: parts.intg,
        frac: parts.frac,
        sign: formed::below_zero(parts.negative, &parts.groups),
        groups: parts.groups,
    }
}

// The same, and positive 0 where no digit is left.
#[tactic(auto, unfolding(crate::specs::Read::or_nought))]
fn or_nought(parts: Parts) -> Decimal
    ensures { result ≡ or_nought parts.intg parts.frac parts.negative parts.groups }
{
    if parts.intg == 0 && parts.frac == 0 {
        return Decimal {
            intg: 1,
            frac: 0,
            sign: false,
            groups: [0; 9],
        };
    }
    decimal_of(parts)
}

// The decimal with these parts, with its precision kept or not.
#[tactic(auto, unfolding(crate::specs::Read::finished))]
pub(crate) fn finish(keep: bool, parts: Parts) -> Decimal
    ensures { result ≡ finished keep parts.intg parts.frac parts.negative parts.groups }
{
    let left = if keep {
        parts
    } else {
        kept::without_leading(parts)
    };
    or_nought(left)
}
