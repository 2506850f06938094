// Runs the worked examples of what stands within a document of binary JSON, a line each: the question, and what the library answers. These are the
// bytes of strings and keys, length fields, and decimals in opaque values.
#![tactic(auto)]

use decimal::Decimal;
use decimal_words::DecimalWords;
use jsonb::{Scalar, Span, Value};
use length_field::Length;
use output::{Answer, Ascii, HexWord, Or, Output};
use refusal::Refusal;
use std::io;
use std::io::Write;
use words::Container;

// ---- bytes of the document

// Bytes as text between quotation marks where all are ASCII that prints, else in hexadecimal digits.
fn write_bytes<W: Write>(out: &mut W, bytes: &[u8]) -> io::Result<()> {
    if bytes.iter().all(|b| b.is_ascii_graphic() || *b == b' ') {
        return writeln!(out, "\"{}\"", Ascii(bytes));
    }
    writeln!(out, "{}", HexWord(bytes))
}

fn write_part<W: Write>(out: &mut W, doc: &[u8], s: Span) -> io::Result<()> {
    let start = s.start as usize;
    let end = start + s.len as usize;
    match doc.get(start..end) {
        Some(bytes) => write_bytes(out, bytes),
        None => writeln!(out),
    }
}

// The bytes of an element that is a string.
fn element_bytes<W: Write>(out: &mut W, c: Container<'_>, pos: u32) -> io::Result<()> {
    let Ok(Some(Value::Scalar(_, Scalar::String(part)))) = jsonb::elem_at(c.doc, c.view, pos) else {
        return Ok(());
    };
    write!(out, "bytes of element {pos} of {c}: ")?;
    write_part(out, c.doc, part)
}

fn key_bytes<W: Write>(out: &mut W, c: Container<'_>, pos: u32) -> io::Result<()> {
    let Ok(Some(part)) = jsonb::key_at(c.doc, c.view, pos) else {
        return Ok(());
    };
    write!(out, "bytes of key {pos} of {c}: ")?;
    write_part(out, c.doc, part)
}

// ---- length fields

// The length, and the place past the field.
fn length<W: Write>(out: &mut W, doc: &[u8]) -> io::Result<()> {
    write!(out, "length {}: ", HexWord(doc))?;
    match length_field::length_at(doc, 0, doc.len()) {
        Ok(Length { length, next }) => writeln!(out, "{length}, and the field ends at {next}"),
        Err(r) => writeln!(out, "refused {}", r.number()),
    }
}

// ---- decimals

// The decimal that the root is, with its precision kept; other values are none.
// (`decimal_answers` has one too: what both use would be a crate of its own for five lines.)
fn root_decimal(doc: &[u8]) -> Result<Option<Decimal>, Refusal> {
    match opaque::decimal_part(jsonb::deserialize(doc)?) {
        Some(part) => Ok(Some(opaque::opaque_decimal(doc, part, true)?)),
        None => Ok(None),
    }
}

fn decimal<W: Write>(out: &mut W, doc: &[u8]) -> io::Result<()> {
    let root = root_decimal(doc).map(|d| Or(d.map(DecimalWords), "other"));
    writeln!(out, "decimal {}: {}", HexWord(doc), Answer(root))
}

// ---- the examples

// An object whose member a is Zoë, and a string that begins among later entries.
fn byte_examples<W: Write>(out: &mut W) -> io::Result<()> {
    let object = Container::root(
        b"\x00\x01\x00\x11\x00\x0B\x00\x01\x00\x0C\x0C\x00\x61\x04\x5A\x6F\xC3\xAB",
    );
    key_bytes(out, object, 0)?;
    element_bytes(out, object, 0)?;
    let array = Container::root(b"\x02\x02\x00\x0C\x00\x0C\x07\x00\x04\x01\x00\x41\x42");
    element_bytes(out, array, 0)
}

fn length_examples<W: Write>(out: &mut W) -> io::Result<()> {
    length(out, b"\x80\x80\x80\x80\x0F")?;
    length(out, b"\x80\x80\x80\x80\x10")
}

// -12.34; a decimal whose bytes are too few; and a string.
fn decimal_examples<W: Write>(out: &mut W) -> io::Result<()> {
    decimal(out, b"\x0F\xF6\x04\x04\x02\x73\xDD")?;
    decimal(out, b"\x0F\xF6\x03\x04\x02\x73\xDD")?;
    decimal(out, b"\x0C\x04\x04\x02\x73\xDD")
}

fn examples(out: &mut Output<'_>) -> io::Result<()> {
    byte_examples(out)?;
    length_examples(out)?;
    decimal_examples(out)?;
    out.flush()
}

// A failed write ends it, and is not told.
fn main(rt: HostRuntime) {
    let mut room = [0u8; 4096];
    let _ = examples(&mut Output::new(rt.stdout(), &mut room));
}
