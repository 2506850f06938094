// MySQL's decimals: packed bytes and text, there and back, and their order by value.
#![tactic(auto)]

mod reader;

ghost use Rattle.std.specs.Prelude.{◌≡◌};
ghost use Rattle.groups.specs.Write.{told as count_told};
ghost use Rattle.order.specs.Value.{told};
ghost use Rattle.decimal.specs.Read.{read_bin, read_packed};
ghost use Rattle.decimal.specs.Write.{parts_of, bin_size, write_bin, bin_leaves};
ghost use Rattle.decimal.specs.Text.{parse_text, print_told, print_leaves};
ghost use Rattle.decimal.specs.Value.{compare_told};

use formed::Formed;
use groups::Parts;
use refusal::Refusal;
use std::cmp::Ordering;

// The bytes that a decimal of this precision and scale takes, by the name that it has in the Rust.
pub use groups::size as decimal_bin_size;

// A decimal: as many integral and fractional digits, a sign, and the digits in groups of nine from the point outwards. The groups of
// the fraction are stored as if each had nine digits, unused groups are 0, and a zero has no sign.
#[derive(Clone, Copy, Debug, PartialEq, Eq)]
pub struct Decimal {
    pub intg: usize,
    pub frac: usize,
    pub sign: bool,
    pub groups: [u32; 9],
}

impl From<Decimal> for Parts {
    ghost from_gives = { λ d p. p ≡ parts_of d };

    fn from(d: Decimal) -> Parts {
        let groups = d.groups;
        Parts {
            negative: d.sign,
            intg: d.intg,
            frac: d.frac,
            groups,
        }
    }
}

impl Decimal {
    // The bytes that this decimal takes.
    #[tactic(auto, unfolding(crate::specs::Write::bin_size))]
    pub fn bin_size(self) -> Result<usize, Refusal>
        ensures { count_told result ≡ bin_size self }
    {
        let parts = Parts::from(self);
        let d = Formed::new(&parts)?;
        groups::size(d.parts.intg + d.parts.frac, d.parts.frac)
    }

    // The decimal in the digit bytes at the front; a zero is positive, whatever they say.
    #[tactic(auto, unfolding(crate::specs::Read::read_bin, crate::specs::Read::from_groups))]
    pub fn read_bin(
        bytes: &[u8],
        precision: usize,
        scale: usize,
        keep: bool,
    ) -> Result<Decimal, Refusal>
        ensures { result ≡ read_bin bytes.now precision scale keep }
    {
        let negative = reader::is_negative(bytes);
        let groups = reading::read(bytes, negative, precision, scale)?;
        let parts = Parts {
            negative,
            intg: precision - scale,
            frac: scale,
            groups,
        };
        Ok(reader::finish(keep, parts))
    }

    // The decimal in the packed form at the front: a precision byte, a scale byte and digit bytes.
    #[tactic(auto, unfolding(crate::specs::Read::read_packed))]
    pub fn read_packed(bytes: &[u8], keep: bool) -> Result<Decimal, Refusal>
        ensures { result ≡ read_packed bytes.now keep }
    {
        let [precision, scale, digits @ ..] = bytes else {
            return Err(Refusal::Short);
        };
        Decimal::read_bin(digits, usize::from(*precision), usize::from(*scale), keep)
    }

    // Writes the digit bytes to the front of the output, and counts them. A refusal changes nothing.
    pub fn write_bin(self, out: &mut [u8]) -> Result<usize, Refusal>
        ensures result_value { count_told result ≡ write_bin self out.old }
        ensures out_after { out.new ≡ bin_leaves self out.old }
    {
        writing::write(out, &Parts::from(self))
    }

    // The decimal that the text writes; a zero is positive.
    #[tactic(auto, unfolding(crate::specs::Text::parse_text, crate::specs::Text::of_digits))]
    pub fn parse_str_bytes(text: &[u8]) -> Result<Decimal, Refusal>
        ensures { result ≡ parse_text text.now }
    {
        Ok(reader::decimal_of(numeral::read(text)?))
    }

    // Prints the decimal to the front of the output, and counts the characters. A refusal changes nothing.
    #[tactic(auto, unfolding(crate::specs::Text::print_told, crate::specs::Text::print_leaves, crate::specs::Text::printed, printing::specs::Print::print_told, printing::specs::Print::print_leaves))]
    pub fn print(self, out: &mut [u8]) -> Result<usize, Refusal>
        ensures result_value { count_told result ≡ print_told self out.old }
        ensures out_after { out.new ≡ print_leaves self out.old }
    {
        printing::print(out, &Parts::from(self))
    }

    // The order of the two values. That its answers are an order, and how they go with what is printed: specs/Order.antt of the crate order_laws.
    #[tactic(auto, unfolding(crate::specs::Value::compare_told, crate::specs::Value::value, order::specs::Value::compare_told))]
    pub fn compare(self, other: Decimal) -> Result<Ordering, Refusal>
        ensures { told result ≡ compare_told self other }
    {
        order::compare(&Parts::from(self), &Parts::from(other))
    }
}
