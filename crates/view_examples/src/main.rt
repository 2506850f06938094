// Runs the worked examples of views of binary JSON, a line each: the question, and what the library answers. A view is told as its kind's code, its
// start, its count and its size.
#![tactic(auto)]

use output::{Answer, HexWord, Output};
use std::io;
use std::io::Write;
use value_words::Words;
use words::Container;

fn root<W: Write>(out: &mut W, doc: &[u8]) -> io::Result<()> {
    let answer = jsonb::deserialize(doc).map(Words);
    writeln!(out, "root {}: {}", HexWord(doc), Answer(answer))
}

fn count<W: Write>(out: &mut W, c: Container<'_>) -> io::Result<()> {
    let answer = jsonb::element_count(c.doc, c.view);
    writeln!(out, "count of {c}: {}", Answer(answer))
}

fn element<W: Write>(out: &mut W, c: Container<'_>, pos: u32) -> io::Result<()> {
    let answer = jsonb::elem_at(c.doc, c.view, pos).map(Words);
    writeln!(out, "element {pos} of {c}: {}", Answer(answer))
}

fn key<W: Write>(out: &mut W, c: Container<'_>, pos: u32) -> io::Result<()> {
    let answer = jsonb::key_at(c.doc, c.view, pos).map(Words);
    writeln!(out, "key {pos} of {c}: {}", Answer(answer))
}

// An array of true and -2. Its view with another count, and its keys, which it has not.
fn array_examples<W: Write>(out: &mut W) -> io::Result<()> {
    let doc = b"\x02\x02\x00\x0A\x00\x04\x01\x00\x05\xFE\xFF";
    let array = Container::root(doc);
    root(out, doc)?;
    for pos in 0..3 {
        element(out, array, pos)?;
    }
    count(out, array)?;
    let other = array.with_count(1);
    element(out, other, 0)?;
    count(out, other)?;
    key(out, array, 0)
}

// An object whose member a is Zoë; then the key's offset is before the header's end.
fn object_examples<W: Write>(out: &mut W) -> io::Result<()> {
    let doc = b"\x00\x01\x00\x11\x00\x0B\x00\x01\x00\x0C\x0C\x00\x61\x04\x5A\x6F\xC3\xAB";
    let object = Container::root(doc);
    root(out, doc)?;
    key(out, object, 0)?;
    element(out, object, 0)?;
    let mut faulty = *doc;
    faulty[5] = 0x0A;
    key(out, object.in_doc(&faulty), 0)
}

// A string that begins among later entries; then its offset is in its own entry.
fn string_examples<W: Write>(out: &mut W) -> io::Result<()> {
    let doc = b"\x02\x02\x00\x0C\x00\x0C\x07\x00\x04\x01\x00\x41\x42";
    let array = Container::root(doc);
    element(out, array, 0)?;
    element(out, array, 1)?;
    let mut faulty = *doc;
    faulty[6] = 0x06;
    element(out, array.in_doc(&faulty), 0)
}

// An Int32 stands at its offset in a small array, and in its entry in a large one.
fn number_examples<W: Write>(out: &mut W) -> io::Result<()> {
    let small = b"\x02\x01\x00\x0B\x00\x07\x07\x00\xFF\xFF\xFF\xFF";
    let large = b"\x03\x01\x00\x00\x00\x0D\x00\x00\x00\x07\xFF\xFF\xFF\xFF";
    element(out, Container::root(small), 0)?;
    element(out, Container::root(large), 0)
}

// Documents whose roots are asked for.
fn root_examples<W: Write>(out: &mut W) -> io::Result<()> {
    let docs = [
        // The empty array; with a size past the end, with a count that the size does not hold, and with no size.
        &b"\x02\x00\x00\x04\x00"[..],
        b"\x02\x00\x00\x05\x00",
        b"\x02\x01\x00\x04\x00",
        b"\x02\x00\x00",
        // A literal, an unknown one, an unknown type, and the empty document.
        b"\x04\x01",
        b"\x04\x03",
        b"\x0D",
        b"",
        // The largest UInt16, the least Int64, 1.5, a NaN, and an opaque decimal.
        b"\x06\xFF\xFF",
        b"\x09\x00\x00\x00\x00\x00\x00\x00\x80",
        b"\x0B\x00\x00\x00\x00\x00\x00\xF8\x3F",
        b"\x0B\x01\x00\x00\x00\x00\x00\xF8\x7F",
        b"\x0F\xF6\x04\x04\x02\x73\xDD",
    ];
    for doc in docs {
        root(out, doc)?;
    }
    Ok(())
}

fn examples(out: &mut Output<'_>) -> io::Result<()> {
    array_examples(out)?;
    object_examples(out)?;
    string_examples(out)?;
    number_examples(out)?;
    root_examples(out)?;
    out.flush()
}

// A failed write ends it, and is not told.
fn main(rt: HostRuntime) {
    let mut room = [0u8; 4096];
    let _ = examples(&mut Output::new(rt.stdout(), &mut room));
}
