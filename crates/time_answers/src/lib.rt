// The answers to questions about dates and times.
#![tactic(auto)]

use asked::{Asked, Fault, NoRequest};
use output::{Answer, Hex, Or, Written, kept};
use refusal::Refusal;
use std::io::Write;
use time::{MysqlTime, TimeType};
use time_words::TimeWords;

fn time_type(asked: &mut Asked<'_>) -> Result<TimeType, NoRequest> {
    TimeType::of(asked.number()?).ok_or(NoRequest)
}

// The type.
pub fn packed<W: Write>(out: &mut W, asked: &mut Asked<'_>) -> Result<(), Fault> {
    let kind = time_type(asked)?;
    let read = MysqlTime::read_packed(asked.last_bytes()?, kind);
    write!(out, "{}", Answer(read.map(TimeWords)))?;
    Ok(())
}

// The date or time that a document's root is.
fn root_time(doc: &[u8]) -> Result<Option<MysqlTime>, Refusal> {
    match opaque_time::time_part(jsonb::deserialize(doc)?) {
        Some((kind, part)) => Ok(Some(opaque_time::opaque_time(doc, part, kind)?)),
        None => Ok(None),
    }
}

pub fn root<W: Write>(out: &mut W, asked: &mut Asked<'_>) -> Result<(), Fault> {
    let root = root_time(asked.last_bytes()?);
    write!(
        out,
        "{}",
        Answer(root.map(|t| Or(t.map(TimeWords), "other")))
    )?;
    Ok(())
}

// The type, the fields, the sign and the room.
pub fn record<W: Write>(out: &mut W, asked: &mut Asked<'_>) -> Result<(), Fault> {
    let time_type = time_type(asked)?;
    let year = asked.number()?;
    let month = asked.number()?;
    let day = asked.number()?;
    let hour = asked.number()?;
    let minute = asked.number()?;
    let second = asked.number()?;
    let second_part = asked.number()?;
    let neg = asked.flag()?;
    let room = asked.number_to(output::ROOM as u32)? as usize;
    asked.end()?;
    let t = MysqlTime {
        year,
        month,
        day,
        hour,
        minute,
        second,
        second_part,
        neg,
        time_type,
    };
    let written = Written::by(room, |room| t.write_packed(room).map(|()| 8));
    write!(
        out,
        "{} ; {}",
        Answer(written.bytes().map(Hex)),
        kept(written.is_kept())
    )?;
    Ok(())
}
