// jsonb-list: every path of a binary JSON document, an event to a line. It reads the file that its one argument names, or standard input.
#![tactic(auto)]

use output::Output;
use std::env::{Env, FillError};
use std::fmt::InlineText;
use std::fs::File;
use std::io;
use std::io::{Read, Write};
use walk::Stopped;

// The bytes that it takes.
const TAKEN: usize = 65536;

// The system's numbers of two errors: a name that is too long, and one that is no text.
const NAME_TOO_LONG: i32 = 36;

const NO_TEXT: i32 = 84;

// ---- standard error

fn complain(rt: HostRuntime, parts: &[&[u8]]) {
    for part in parts {
        let _ = rt.stderr().write_all(part);
    }
}

// What failed, and why. (std puts the system's number behind an error's text.)
fn fail(rt: HostRuntime, what: &[u8], error: io::Error) {
    let text = InlineText::<256>::of(error);
    let whole = text.as_str();
    let reason = match whole.rsplit_once(" (") {
        Some((reason, _)) => reason,
        None => whole,
    };
    complain(rt, &[what, b": ", reason.as_bytes(), b"\n"]);
}

// ---- what the walk answers

// The first events, one to a line.
fn write_events<W: Write>(out: &mut W, numbers: &[u32], count: usize) -> io::Result<()> {
    writeln!(out, "events {count}")?;
    for event in numbers.chunks_exact(events::WIDE).take(count) {
        let mut gap = "";
        for n in event {
            write!(out, "{gap}{n}")?;
            gap = " ";
        }
        writeln!(out)?;
    }
    Ok(())
}

// What the walk of a document answers.
fn write_walk<W: Write>(out: &mut W, doc: &[u8]) -> io::Result<()> {
    let mut numbers = [0u32; 16384];
    match walk::walk(doc, &mut numbers) {
        Ok(count) => write_events(out, &numbers, count),
        Err(
            Stopped {
                refusal,
                place,
                count,
            },
        ) => {
            write_events(out, &numbers, count)?;
            writeln!(out, "refused {} at {place}", refusal.number())
        }
    }
}

// ---- the input

// The document in the input, nothing where it is longer than the buffer. Each read is lent all the room that is left: of a packet, what a read has no room for
// is lost.
fn read_document<'b, R: Read>(input: &mut R, buf: &'b mut [u8]) -> io::Result<Option<&'b [u8]>> {
    let room = buf.len();
    let mut n = 0;
    while n < room {
        let more = input.read(&mut buf[n..])?;
        if more == 0 {
            break;
        }
        n += more.min(room - n);
    }
    if n == room && input.read(&mut [0u8; 1])? > 0 {
        return Ok(None);
    }
    Ok(buf.get(..n))
}

fn list(rt: HostRuntime, doc: Option<&[u8]>) -> io::Result<()> {
    let mut room = [0u8; 4096];
    let mut out = Output::new(rt.stdout(), &mut room);
    match doc {
        Some(doc) => write_walk(&mut out, doc)?,
        None => writeln!(out, "too long")?,
    }
    out.flush()
}

// Lists what can be read; `name` is what the input is called where it cannot.
fn list_input<R: Read>(rt: HostRuntime, input: &mut R, name: &[u8]) {
    let mut bytes = [0u8; TAKEN];
    match read_document(input, &mut bytes) {
        Ok(doc) => {
            if let Err(e) = list(rt, doc) {
                fail(rt, b"standard output", e);
            }
        }
        Err(e) => fail(rt, name, e),
    }
}

// ---- the argument

// A name that is no text is no file's that std can open.
fn open(rt: HostRuntime, name: &[u8]) -> io::Result<File> {
    match std::str::from_utf8(name) {
        Ok(path) => File::open(&rt, path),
        Err(_) => Err(io::Error::from_raw_os_error(NO_TEXT)),
    }
}

fn list_named(rt: HostRuntime, name: &[u8]) {
    match open(rt, name) {
        Ok(mut file) => list_input(rt, &mut file, name),
        Err(e) => fail(rt, name, e),
    }
}

fn list_file(rt: HostRuntime) {
    let mut path = [0u8; 4096];
    match rt.arg(1, &mut path) {
        Ok(n) => list_named(rt, &path[..n]),
        Err(_) => {
            let error = io::Error::from_raw_os_error(NAME_TOO_LONG);
            fail(rt, b"jsonb-list", error);
        }
    }
}

// Whether there is an argument at a place; its text need not fit.
fn is_given(rt: HostRuntime, i: usize) -> bool {
    let mut none = [0u8; 1];
    !matches!(rt.arg(i, &mut none), Err(FillError::NotPresent))
}

fn main(rt: HostRuntime) {
    if !is_given(rt, 1) {
        list_input(rt, &mut rt.stdin(), b"standard input");
        return;
    }
    if !is_given(rt, 2) {
        list_file(rt);
        return;
    }
    complain(rt, &[b"usage: jsonb-list [FILE]\n"]);
}
