// The answers to questions about a decimal in bytes.
#![tactic(auto)]

use asked::{Asked, Fault};
use decimal::Decimal;
use decimal_words::{DecimalWords, OrderWord};
use output::{Answer, Or};
use refusal::Refusal;
use std::cmp::Ordering;
use std::io::Write;

// Precision, scale, and whether the precision is kept.
pub fn bin<W: Write>(out: &mut W, asked: &mut Asked<'_>) -> Result<(), Fault> {
    let precision = asked.number()? as usize;
    let scale = asked.number()? as usize;
    let keep = asked.flag()?;
    let read = Decimal::read_bin(asked.last_bytes()?, precision, scale, keep);
    write!(out, "{}", Answer(read.map(DecimalWords)))?;
    Ok(())
}

pub fn packed<W: Write>(out: &mut W, asked: &mut Asked<'_>) -> Result<(), Fault> {
    let keep = asked.flag()?;
    let read = Decimal::read_packed(asked.last_bytes()?, keep);
    write!(out, "{}", Answer(read.map(DecimalWords)))?;
    Ok(())
}

pub fn text<W: Write>(out: &mut W, asked: &mut Asked<'_>) -> Result<(), Fault> {
    let parsed = Decimal::parse_str_bytes(asked.last_bytes()?);
    write!(out, "{}", Answer(parsed.map(DecimalWords)))?;
    Ok(())
}

pub fn size<W: Write>(out: &mut W, asked: &mut Asked<'_>) -> Result<(), Fault> {
    let precision = asked.number()? as usize;
    let scale = asked.number()? as usize;
    asked.end()?;
    write!(
        out,
        "{}",
        Answer(decimal::decimal_bin_size(precision, scale))
    )?;
    Ok(())
}

// The order of two, or the first refusal.
fn order(a: Result<Decimal, Refusal>, b: Result<Decimal, Refusal>) -> Result<Ordering, Refusal> {
    a?.compare(b?)
}

// Of two packed decimals, with their precision kept.
pub fn compare<W: Write>(out: &mut W, asked: &mut Asked<'_>) -> Result<(), Fault> {
    let a = Decimal::read_packed(asked.bytes()?, true);
    let b = Decimal::read_packed(asked.last_bytes()?, true);
    write!(out, "{}", Answer(order(a, b).map(OrderWord)))?;
    Ok(())
}

// The decimal that a document's root is, with its precision kept or not.
fn root_decimal(doc: &[u8], keep: bool) -> Result<Option<Decimal>, Refusal> {
    match opaque::decimal_part(jsonb::deserialize(doc)?) {
        Some(part) => Ok(Some(opaque::opaque_decimal(doc, part, keep)?)),
        None => Ok(None),
    }
}

pub fn root<W: Write>(out: &mut W, asked: &mut Asked<'_>) -> Result<(), Fault> {
    let keep = asked.flag()?;
    let root = root_decimal(asked.last_bytes()?, keep);
    write!(
        out,
        "{}",
        Answer(root.map(|d| Or(d.map(DecimalWords), "other")))
    )?;
    Ok(())
}
