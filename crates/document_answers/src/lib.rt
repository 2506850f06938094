// The answers to questions about a document.
#![tactic(auto)]

use asked::{Asked, Fault, NoRequest};
use jsonb::{Elements, Keys, Kind, Members, View};
use output::Answer;
use std::fmt::Display;
use std::io::Write;
use value_words::Words;

pub fn root<W: Write>(out: &mut W, asked: &mut Asked<'_>) -> Result<(), Fault> {
    let doc = asked.last_bytes()?;
    write!(out, "{}", Answer(jsonb::deserialize(doc).map(Words)))?;
    Ok(())
}

pub fn utf8<W: Write>(out: &mut W, asked: &mut Asked<'_>) -> Result<(), Fault> {
    match utf8::utf8_check(asked.last_bytes()?) {
        Ok(()) => write!(out, "utf8")?,
        Err(e) => write!(out, "bad {}", e.place)?,
    }
    Ok(())
}

// ---- questions about a view

// A view's kind, start, count and size.
fn view(asked: &mut Asked<'_>) -> Result<View, NoRequest> {
    let code = asked.number_to(3)?;
    let kind = Kind {
        object: code < 2,
        large: code % 2 == 1,
    };
    let start = asked.number()?;
    let count = asked.number()?;
    let size = asked.number()?;
    Ok(View {
        start,
        size,
        count,
        kind,
    })
}

pub fn element<W: Write>(out: &mut W, asked: &mut Asked<'_>) -> Result<(), Fault> {
    let view = view(asked)?;
    let pos = asked.number()?;
    let doc = asked.last_bytes()?;
    write!(out, "{}", Answer(jsonb::elem_at(doc, view, pos).map(Words)))?;
    Ok(())
}

pub fn key<W: Write>(out: &mut W, asked: &mut Asked<'_>) -> Result<(), Fault> {
    let view = view(asked)?;
    let pos = asked.number()?;
    let doc = asked.last_bytes()?;
    write!(out, "{}", Answer(jsonb::key_at(doc, view, pos).map(Words)))?;
    Ok(())
}

pub fn count<W: Write>(out: &mut W, asked: &mut Asked<'_>) -> Result<(), Fault> {
    let view = view(asked)?;
    let doc = asked.last_bytes()?;
    write!(out, "{}", Answer(jsonb::element_count(doc, view)))?;
    Ok(())
}

// ---- iterations

// How many items are listed.
const LISTED: u32 = 1024;

// The first items and what ends them. A step gives the item at a position and the position that follows, which is its own at the end.
fn items<W: Write, T: Display + Drop, F: Fn(&[u8], View, u32) -> (T, u32)>(
    out: &mut W,
    asked: &mut Asked<'_>,
    step: F,
) -> Result<(), Fault>
    requires { F.IsAlwaysCallable step }
{
    let view = view(asked)?;
    let doc = asked.last_bytes()?;
    let mut at = 0;
    for listed in 0..LISTED + 1 {
        if listed == LISTED && at < view.count {
            write!(out, " ; more")?;
            break;
        }
        let (item, next) = step(doc, view, at);
        let gap = if at == 0 { "" } else { " ; " };
        write!(out, "{gap}{item}")?;
        if next == at {
            break;
        }
        at = next;
    }
    Ok(())
}

// The three iterations, one handler over their places, which are three types.
pub fn elements<W: Write>(out: &mut W, asked: &mut Asked<'_>) -> Result<(), Fault> {
    items(out, asked, |doc, view, at| {
        let step = Elements { view, at }.next(doc);
        (Answer(step.item.map(Words)), step.next.at)
    })
}

pub fn keys<W: Write>(out: &mut W, asked: &mut Asked<'_>) -> Result<(), Fault> {
    items(out, asked, |doc, view, at| {
        let step = Keys { view, at }.next(doc);
        (Answer(step.item.map(Words)), step.next.at)
    })
}

pub fn members<W: Write>(out: &mut W, asked: &mut Asked<'_>) -> Result<(), Fault> {
    items(out, asked, |doc, view, at| {
        let step = Members { view, at }.next(doc);
        (Answer(step.item.map(Words)), step.next.at)
    })
}
