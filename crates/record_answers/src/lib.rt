// The answers to questions about records of decimals.
#![tactic(auto)]

use asked::{Asked, Fault, NoRequest};
use decimal::Decimal;
use decimal_words::OrderWord;
use output::{Answer, Ascii, Hex, Written, kept};
use std::io::Write;

// The counts of digits, the sign and the groups.
fn decimal(asked: &mut Asked<'_>) -> Result<Decimal, NoRequest> {
    let intg = asked.number()? as usize;
    let frac = asked.number()? as usize;
    let sign = asked.flag()?;
    let mut groups = [0u32; 9];
    for group in groups.iter_mut() {
        *group = asked.number()?;
    }
    Ok(Decimal {
        intg,
        frac,
        sign,
        groups,
    })
}

// The size, the digit bytes and the text, of which both are written to so much room; and whether all outside of them is kept.
pub fn record<W: Write>(out: &mut W, asked: &mut Asked<'_>) -> Result<(), Fault> {
    let d = decimal(asked)?;
    let room = asked.number_to(output::ROOM as u32)? as usize;
    asked.end()?;
    let bytes = Written::by(room, |room| d.write_bin(room));
    let text = Written::by(room, |room| d.print(room));
    write!(
        out,
        "{} ; {} ; {} ; {}",
        Answer(d.bin_size()),
        Answer(bytes.bytes().map(Hex)),
        Answer(text.bytes().map(Ascii)),
        kept(bytes.is_kept() && text.is_kept())
    )?;
    Ok(())
}

pub fn order<W: Write>(out: &mut W, asked: &mut Asked<'_>) -> Result<(), Fault> {
    let a = decimal(asked)?;
    let b = decimal(asked)?;
    asked.end()?;
    write!(out, "{}", Answer(a.compare(b).map(OrderWord)))?;
    Ok(())
}
