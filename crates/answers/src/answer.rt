// The answer to one request: a line of words, with one space between two, comes in, and a line goes out. A line that is no request is answered `what`.
use asked::{Asked, Fault};
use std::io;
use std::io::Write;

// The most bytes that a word of a line writes.
pub(crate) const BYTES: usize = 32768;

// The answer to what a line asks, without its end. A line that is no request is found out before anything is written.
fn answer<W: Write>(out: &mut W, line: &[u8], room: &mut [u8]) -> Result<(), Fault> {
    let asked = &mut Asked::new(line, room);
    match asked.word()? {
        b"w" => walk_answers::walk(out, asked),
        b"v" => document_answers::root(out, asked),
        b"e" => document_answers::element(out, asked),
        b"k" => document_answers::key(out, asked),
        b"n" => document_answers::count(out, asked),
        b"ie" => document_answers::elements(out, asked),
        b"ik" => document_answers::keys(out, asked),
        b"im" => document_answers::members(out, asked),
        b"u" => document_answers::utf8(out, asked),
        b"r" => decimal_answers::bin(out, asked),
        b"p" => decimal_answers::packed(out, asked),
        b"t" => decimal_answers::text(out, asked),
        b"o" => decimal_answers::root(out, asked),
        b"c" => decimal_answers::compare(out, asked),
        b"s" => decimal_answers::size(out, asked),
        b"x" => record_answers::record(out, asked),
        b"y" => record_answers::order(out, asked),
        b"d" => time_answers::packed(out, asked),
        b"q" => time_answers::root(out, asked),
        b"z" => time_answers::record(out, asked),
        _ => Err(Fault::NoRequest),
    }
}

// The answer to a line that comes without its end. The bytes that its words write are put to a room.
pub(crate) fn write_answer<W: Write>(out: &mut W, line: &[u8], room: &mut [u8]) -> io::Result<()> {
    match answer(out, line, room) {
        Ok(()) => out.write_all(b"\n"),
        Err(Fault::NoRequest) => out.write_all(b"what\n"),
        Err(Fault::Unwritten(e)) => Err(e),
    }
}
