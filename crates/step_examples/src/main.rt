// Runs the worked examples of iterations over a container of binary JSON, a line each: the question, and what the library answers. The items of an
// iteration are parted by semicolons.
#![tactic(auto)]

use jsonb::{Elements, Keys, Members};
use output::{Answer, Output};
use std::fmt::Display;
use std::io;
use std::io::Write;
use value_words::Words;
use words::Container;

// All steps, until the position stays as it was; eight at most. A step gives the item at a position and the position that follows.
fn steps<W: Write, T: Display + Drop, F: Fn(Container<'_>, u32) -> (T, u32)>(
    out: &mut W,
    name: &str,
    c: Container<'_>,
    step: F,
) -> io::Result<()>
    requires { F.IsAlwaysCallable step }
{
    write!(out, "{name} of {c}: ")?;
    let mut at = 0;
    for _ in 0..8 {
        let (item, next) = step(c, at);
        let gap = if at == 0 { "" } else { " ; " };
        write!(out, "{gap}{item}")?;
        if next == at {
            break;
        }
        at = next;
    }
    writeln!(out)
}

fn elements<W: Write>(out: &mut W, c: Container<'_>) -> io::Result<()> {
    steps(out, "elements", c, |c, at| {
        let step = Elements { view: c.view, at }.next(c.doc);
        (Answer(step.item.map(Words)), step.next.at)
    })
}

fn keys<W: Write>(out: &mut W, c: Container<'_>) -> io::Result<()> {
    steps(out, "keys", c, |c, at| {
        let step = Keys { view: c.view, at }.next(c.doc);
        (Answer(step.item.map(Words)), step.next.at)
    })
}

fn members<W: Write>(out: &mut W, c: Container<'_>) -> io::Result<()> {
    steps(out, "members", c, |c, at| {
        let step = Members { view: c.view, at }.next(c.doc);
        (Answer(step.item.map(Words)), step.next.at)
    })
}

// An array of true and -2, and one whose second of three elements is no literal.
fn element_examples<W: Write>(out: &mut W) -> io::Result<()> {
    let docs = [
        &b"\x02\x02\x00\x0A\x00\x04\x01\x00\x05\xFE\xFF"[..],
        b"\x02\x03\x00\x0D\x00\x04\x01\x00\x04\x03\x00\x05\xFE\xFF",
    ];
    for doc in docs {
        elements(out, Container::root(doc))?;
    }
    Ok(())
}

// An object whose member a is Zoë; and one of three members, of which the second has its key's offset in the header and a value that is no literal: the key's
// fault is told.
fn member_examples<W: Write>(out: &mut W) -> io::Result<()> {
    let docs = [
        &b"\x00\x01\x00\x11\x00\x0B\x00\x01\x00\x0C\x0C\x00\x61\x04\x5A\x6F\xC3\xAB"[..],
        b"\x00\x03\x00\x1C\x00\x19\x00\x01\x00\x18\x00\x01\x00\x1B\x00\x01\x00\x04\x00\x00\x04\x03\x00\x05\xFE\xFF\x61\x62\x63",
    ];
    for doc in docs {
        keys(out, Container::root(doc))?;
        members(out, Container::root(doc))?;
    }
    Ok(())
}

// The wrong kind is asked, and a view with another count.
fn refused_examples<W: Write>(out: &mut W) -> io::Result<()> {
    let object = b"\x00\x00\x00\x04\x00";
    elements(out, Container::root(object))?;
    let doc = b"\x02\x01\x00\x07\x00\x04\x01\x00";
    let array = Container::root(doc);
    keys(out, array)?;
    members(out, array)?;
    elements(out, array.with_count(0))
}

fn examples(out: &mut Output<'_>) -> io::Result<()> {
    element_examples(out)?;
    member_examples(out)?;
    refused_examples(out)?;
    out.flush()
}

// A failed write ends it, and is not told.
fn main(rt: HostRuntime) {
    let mut room = [0u8; 4096];
    let _ = examples(&mut Output::new(rt.stdout(), &mut room));
}
