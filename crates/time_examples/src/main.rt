// Runs worked examples of dates and times, a line each: the question, and what the library answers. What is read is written again, into a room of as many bytes.
#![tactic(auto)]

use jsonb::Value;
use output::{Answer, HexWord, Output};
use refusal::Refusal;
use std::io;
use std::io::Write;
use time::{MysqlTime, TimeType};
use time_words::TimeWords;

// The eight bytes that a date or a time writes, or a refusal.
fn write_bytes<W: Write>(out: &mut W, t: MysqlTime) -> io::Result<()> {
    let mut room = [0u8; 8];
    let written = t.write_packed(&mut room);
    write!(out, "{}", Answer(written.map(|()| HexWord(&room))))
}

// What was read, and what it writes again.
fn write_read<W: Write>(out: &mut W, read: Result<MysqlTime, Refusal>) -> io::Result<()> {
    write!(out, "{}", Answer(read.map(TimeWords)))?;
    if let Ok(t) = read {
        write!(out, ", written ")?;
        write_bytes(out, t)?;
    }
    writeln!(out)
}

fn packed<W: Write>(out: &mut W, t: TimeType, bytes: &[u8]) -> io::Result<()> {
    write!(out, "type {} in {}: ", t.code(), HexWord(bytes))?;
    write_read(out, MysqlTime::read_packed(bytes, t))
}

// The date or time that a value of a document is.
fn write_part<W: Write>(out: &mut W, doc: &[u8], x: Value) -> io::Result<()> {
    match opaque_time::time_part(x) {
        Some((kind, part)) => write_read(out, opaque_time::opaque_time(doc, part, kind)),
        None => writeln!(out, "other"),
    }
}

fn root<W: Write>(out: &mut W, doc: &[u8]) -> io::Result<()> {
    write!(out, "root {}: ", HexWord(doc))?;
    match jsonb::deserialize(doc) {
        Ok(x) => write_part(out, doc, x),
        Err(r) => writeln!(out, "refused {}", r.number()),
    }
}

// ---- the examples

fn packed_examples<W: Write>(out: &mut W) -> io::Result<()> {
    let examples = [
        // 2026-11-16 19:13:25, with a quarter of a second and as a date alone; the greatest date; 0000-00-00.
        (TimeType::Datetime, &b"\x00\x00\x00\x59\x33\x61\xBB\x19"[..]),
        (TimeType::Timestamp, b"\x90\xD0\x03\x59\x33\x61\xBB\x19"),
        (TimeType::Date, b"\x00\x00\x00\x00\x00\x60\xBB\x19"),
        (TimeType::Datetime, b"\x3F\x42\x0F\xFB\x7E\xFF\xF3\x7E"),
        (TimeType::Date, b"\x00\x00\x00\x00\x00\x00\x00\x00"),
        // 09:30:00; the greatest time and the least; a microsecond below zero; and later bytes are not read.
        (TimeType::Time, b"\x00\x00\x00\x80\x97\x00\x00\x00"),
        (TimeType::Time, b"\x3F\x42\x0F\xFB\x6E\x34\x00\x00"),
        (TimeType::Time, b"\xC1\xBD\xF0\x04\x91\xCB\xFF\xFF"),
        (TimeType::Time, b"\xFF\xFF\xFF\xFF\xFF\xFF\xFF\xFF"),
        (TimeType::Time, b"\x00\x00\x00\x80\x97\x00\x00\x00\xFF"),
        // 839 hours, minute 60, a million microseconds, a date with a clock part, a negative date, the least number, and too few bytes.
        (TimeType::Time, b"\x00\x00\x00\x00\x70\x34\x00\x00"),
        (TimeType::Time, b"\x00\x00\x00\x00\x0F\x00\x00\x00"),
        (TimeType::Time, b"\x40\x42\x0F\x00\x00\x00\x00\x00"),
        (TimeType::Date, b"\x01\x00\x00\x00\x00\x60\xBB\x19"),
        (TimeType::Date, b"\x00\x00\x00\x00\x00\xA0\x44\xE6"),
        (TimeType::Datetime, b"\x00\x00\x00\x00\x00\x00\x00\x80"),
        (TimeType::Date, b"\x00\x00\x00\x00\x00\x00\x00"),
    ];
    for (t, bytes) in examples {
        packed(out, t, bytes)?;
    }
    Ok(())
}

// A datetime and a time in a document; one of which a byte is missing; and a decimal.
fn root_examples<W: Write>(out: &mut W) -> io::Result<()> {
    let docs = [
        &b"\x0F\x0C\x08\x00\x00\x00\x59\x33\x61\xBB\x19"[..],
        b"\x0F\x0B\x08\xFF\xFF\xFF\xFF\xFF\xFF\xFF\xFF",
        b"\x0F\x0A\x07\x00\x00\x00\x00\x00\x60\xBB",
        b"\x0F\xF6\x04\x04\x02\x73\xDD",
    ];
    for doc in docs {
        root(out, doc)?;
    }
    Ok(())
}

// A value that is no date: written, it is refused.
fn unwritten<W: Write>(out: &mut W) -> io::Result<()> {
    let t = MysqlTime {
        year: 0,
        month: 0,
        day: 0,
        hour: 0,
        minute: 0,
        second: 0,
        second_part: 0,
        neg: true,
        time_type: TimeType::Time,
    };
    write!(out, "a time that is zero and negative: ")?;
    write_bytes(out, t)?;
    writeln!(out)
}

fn examples(out: &mut Output<'_>) -> io::Result<()> {
    packed_examples(out)?;
    root_examples(out)?;
    unwritten(out)?;
    out.flush()
}

// A failed write ends it, and is not told.
fn main(rt: HostRuntime) {
    let mut room = [0u8; 4096];
    let _ = examples(&mut Output::new(rt.stdout(), &mut room));
}
