// The words in which programs print decimals and their order.
#![tactic(auto)]

use decimal::Decimal;
use output::{Answer, Ascii, Hex, Written};
use std::cmp::Ordering;
use std::fmt;
use std::fmt::{Display, Formatter};

// More bytes than any decimal prints or writes.
const ENOUGH: usize = 68;

// The text that a decimal prints.
#[derive(Clone, Copy)]
pub struct Printed(pub Decimal);

impl Display for Printed {
    fn fmt<W: fmt::Write>(&self, f: &mut Formatter<W>) -> fmt::Result {
        let d = self.0;
        let text = Written::by(ENOUGH, |room| d.print(room));
        write!(f, "{}", Answer(text.bytes().map(Ascii)))
    }
}

// The digit bytes that it writes.
#[derive(Clone, Copy)]
pub struct Digits(pub Decimal);

impl Display for Digits {
    fn fmt<W: fmt::Write>(&self, f: &mut Formatter<W>) -> fmt::Result {
        let d = self.0;
        let bytes = Written::by(ENOUGH, |room| d.write_bin(room));
        write!(f, "{}", Answer(bytes.bytes().map(Hex)))
    }
}

// Both counts of digits, the sign, the text and the digit bytes.
#[derive(Clone, Copy)]
pub struct DecimalWords(pub Decimal);

impl Display for DecimalWords {
    fn fmt<W: fmt::Write>(&self, f: &mut Formatter<W>) -> fmt::Result {
        let d = self.0;
        let sign = if d.sign { '-' } else { '+' };
        write!(
            f,
            "{} {} {sign} {} {}",
            d.intg,
            d.frac,
            Printed(d),
            Digits(d)
        )
    }
}

#[derive(Clone, Copy)]
pub struct OrderWord(pub Ordering);

impl Display for OrderWord {
    fn fmt<W: fmt::Write>(&self, f: &mut Formatter<W>) -> fmt::Result {
        match self.0 {
            Ordering::Less => write!(f, "less"),
            Ordering::Equal => write!(f, "equal"),
            Ordering::Greater => write!(f, "greater"),
        }
    }
}
