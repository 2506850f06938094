// Runs the worked examples of decimals, a line each: the question, and what the library answers.
#![tactic(auto)]

use decimal::Decimal;
use decimal_words::{Digits, OrderWord, Printed};
use output::{Answer, Hex, Output};
use refusal::Refusal;
use std::cmp::Ordering;
use std::io;
use std::io::Write;

type Read = Result<Decimal, Refusal>;

fn kept(keep: bool) -> &'static str {
    if keep { " kept" } else { "" }
}

fn packed<W: Write>(out: &mut W, bytes: &[u8], keep: bool) -> io::Result<()> {
    let read = Decimal::read_packed(bytes, keep).map(Printed);
    writeln!(out, "packed {}{}: {}", Hex(bytes), kept(keep), Answer(read))
}

fn bin<W: Write>(
    out: &mut W,
    bytes: &[u8],
    precision: usize,
    scale: usize,
    keep: bool,
) -> io::Result<()> {
    let read = Decimal::read_bin(bytes, precision, scale, keep).map(Printed);
    write!(out, "({precision},{scale}) {}", Hex(bytes))?;
    writeln!(out, "{}: {}", kept(keep), Answer(read))
}

fn text<W: Write>(out: &mut W, name: &str, text: &[u8]) -> io::Result<()> {
    let parsed = Decimal::parse_str_bytes(text).map(Printed);
    writeln!(out, "{name}: {}", Answer(parsed))
}

// The order of two values, or the first refusal.
fn order_of(x: Read, y: Read) -> Result<Ordering, Refusal> {
    x?.compare(y?)
}

// The order of two texts' values.
fn order<W: Write>(out: &mut W, a: &str, b: &str) -> io::Result<()> {
    let x = Decimal::parse_str_bytes(a.as_bytes());
    let y = Decimal::parse_str_bytes(b.as_bytes());
    writeln!(
        out,
        "{a} and {b}: {}",
        Answer(order_of(x, y).map(OrderWord))
    )
}

// The order of the values in digit bytes and in a text.
fn order_bin<W: Write>(out: &mut W, bytes: &[u8], precision: usize, b: &str) -> io::Result<()> {
    let x = Decimal::read_bin(bytes, precision, 0, true);
    let y = Decimal::parse_str_bytes(b.as_bytes());
    let order = order_of(x, y).map(OrderWord);
    writeln!(out, "{} and {b}: {}", Hex(bytes), Answer(order))
}

fn size_of(x: Read) -> Result<usize, Refusal> {
    x?.bin_size()
}

fn written_to(x: Read, room: &mut [u8]) -> Result<usize, Refusal> {
    x?.write_bin(room)
}

// A text's digit bytes, into as much room as there is.
fn written<W: Write>(out: &mut W, a: &str, room: &mut [u8]) -> io::Result<()> {
    let x = Decimal::parse_str_bytes(a.as_bytes());
    let n = written_to(x, room);
    write!(out, "{a} takes {}, in {}: ", Answer(size_of(x)), room.len())?;
    let bytes = n.map(|n| Hex(&room[..n.min(room.len())]));
    writeln!(out, "{}", Answer(bytes))
}

// What digit bytes come back as when they are read with kept precision and written.
fn back<W: Write>(out: &mut W, bytes: &[u8], precision: usize, scale: usize) -> io::Result<()> {
    let read = Decimal::read_bin(bytes, precision, scale, true).map(Digits);
    writeln!(out, "{} comes back as {}", Hex(bytes), Answer(read))
}

// A record whose groups are all zero, with a sign or without.
fn zero_record<W: Write>(out: &mut W, name: &str, sign: bool) -> io::Result<()> {
    let d = Decimal {
        intg: 1,
        frac: 1,
        sign,
        groups: [0; 9],
    };
    write!(out, "{name} prints {}, takes ", Printed(d))?;
    write!(out, "{}, writes {}; ", Answer(d.bin_size()), Digits(d))?;
    let order = d.compare(d).map(OrderWord);
    writeln!(out, "beside itself: {}", Answer(order))
}

fn packed_examples<W: Write>(out: &mut W) -> io::Result<()> {
    for bytes in [&b"\x04\x02\x73\xDD"[..], b"\x04\x02\x8C\x22", b"\x04"] {
        packed(out, bytes, true)?;
    }
    Ok(())
}

fn bin_examples<W: Write>(out: &mut W) -> io::Result<()> {
    bin(out, b"\xE3", 2, 0, true)?;
    bin(out, b"\xE4", 2, 0, true)?;
    bin(out, b"\x7F", 2, 0, true)?;
    bin(out, b"\x7F", 2, 0, false)?;
    bin(out, b"", 0, 0, true)?;
    bin(out, b"\x80", 1, 2, true)?;
    bin(out, b"\x80", 3, 0, true)
}

fn text_examples<W: Write>(out: &mut W) -> io::Result<()> {
    for a in ["007", ".5", "."] {
        text(out, a, a.as_bytes())?;
    }
    text(out, "66 zeros", &[b'0'; 66])?;
    let mut minus = [b'0'; 67];
    minus[0] = b'-';
    text(out, "- and 66 zeros", &minus)?;
    text(out, "1 with a space", b"1 ")?;
    for a in ["00-5", "5.", "-0.00", "0123456789"] {
        text(out, a, a.as_bytes())?;
    }
    Ok(())
}

fn order_examples<W: Write>(out: &mut W) -> io::Result<()> {
    order(out, "9", "100")?;
    order(out, "1", "1.0")?;
    order(out, "1", ".1")?;
    order_bin(out, b"\x7F", 2, "0")?;
    order(out, "-9", "-100")
}

fn zero_examples<W: Write>(out: &mut W) -> io::Result<()> {
    for bytes in [b"\x7F\xFF", b"\x7F\xFE", b"\x80\x00"] {
        back(out, bytes, 2, 1)?;
    }
    zero_record(out, "record 0.0", false)?;
    zero_record(out, "record 0.0 with a sign", true)
}

// The bytes of each count of digits in one group.
fn width_examples<W: Write>(out: &mut W) -> io::Result<()> {
    write!(out, "bytes of 0 to 9 digits:")?;
    for digits in 0..10 {
        write!(out, " {}", Answer(decimal::decimal_bin_size(digits, 0)))?;
    }
    writeln!(out)
}

fn written_examples<W: Write>(out: &mut W) -> io::Result<()> {
    let mut room = [0u8; 8];
    written(out, "1234567890.1234", &mut room)?;
    written(out, "-1234567890.1234", &mut room)?;
    written(out, "1234567890.1234", &mut room[..6])
}

fn examples(out: &mut Output<'_>) -> io::Result<()> {
    packed_examples(out)?;
    bin_examples(out)?;
    text_examples(out)?;
    order_examples(out)?;
    zero_examples(out)?;
    width_examples(out)?;
    written_examples(out)?;
    out.flush()
}

// A failed write ends it, and is not told.
fn main(rt: HostRuntime) {
    let mut room = [0u8; 4096];
    let _ = examples(&mut Output::new(rt.stdout(), &mut room));
}
