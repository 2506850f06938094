// Runs the worked examples of the walk, a line each: the question, and what the library answers. A question names how many numbers are lent, nine for
// each event that finds room. An answer is the events' numbers, or a refusal with its place and the events before it.
#![tactic(auto)]

use output::{HexWord, Output};
use std::io;
use std::io::Write;
use walk::Stopped;

// ---- what the walk answers

// An event after a comma.
fn write_event<W: Write>(out: &mut W, event: &[u32]) -> io::Result<()> {
    write!(out, ",")?;
    for n in event {
        write!(out, " {n}")?;
    }
    Ok(())
}

// The first events; of more than eight only the last.
fn write_events<W: Write>(out: &mut W, lent: &[u32], count: usize) -> io::Result<()> {
    write!(out, "{count} events")?;
    let mut skipped = 0;
    if 8 < count {
        write!(out, ", the last")?;
        skipped = count - 1;
    }
    for event in lent.chunks_exact(events::WIDE).take(count).skip(skipped) {
        write_event(out, event)?;
    }
    writeln!(out)
}

fn write_walked<W: Write>(
    out: &mut W,
    lent: &[u32],
    walked: Result<usize, Stopped>,
) -> io::Result<()> {
    match walked {
        Ok(count) => write_events(out, lent, count),
        Err(
            Stopped {
                refusal,
                place,
                count,
            },
        ) => {
            write!(out, "refused {} at {place} after ", refusal.number())?;
            write_events(out, lent, count)
        }
    }
}

// Walks a document with these numbers lent.
fn lend<W: Write>(out: &mut W, doc: &[u8], lent: &mut [u32]) -> io::Result<()> {
    write!(out, "walk with {} of {}: ", lent.len(), HexWord(doc))?;
    let walked = walk::walk(doc, lent);
    write_walked(out, lent, walked)
}

// ---- arrays that hold one another

// The header and the entry of a small array of one element: the count, the size, the element's type, and its offset. The innermost array, of 7 bytes, ends with
// its element's entry, which is true.
fn array_bytes(size: usize) -> [u8; 7] {
    let low = (size % 256) as u8;
    let high = (size / 256 % 256) as u8;
    if size == 7 {
        [1, 0, low, high, 4, 1, 0]
    } else {
        [1, 0, low, high, 2, 7, 0]
    }
}

// Byte i of a document of so many bytes: arrays that hold one another, each right behind the header of the one around it and up to the document's end.
fn nested_byte(len: usize, i: usize) -> u8 {
    if i == 0 {
        return 2;
    }
    let at = (i - 1) % 7;
    array_bytes(len.saturating_sub(i - at))[at]
}

// Walks true inside arrays. Seven bytes are an array.
fn nested<W: Write>(out: &mut W, doc: &mut [u8]) -> io::Result<()> {
    let len = doc.len();
    for (i, byte) in doc.iter_mut().enumerate() {
        *byte = nested_byte(len, i);
    }
    write!(out, "walk with 918 of true inside {} arrays: ", len / 7)?;
    let mut lent = [0u32; 918];
    let walked = walk::walk(doc, &mut lent);
    write_walked(out, &lent, walked)
}

fn nested_examples<W: Write>(out: &mut W) -> io::Result<()> {
    let mut hundred = [0u8; 701];
    nested(out, &mut hundred)?;
    let mut more = [0u8; 708];
    nested(out, &mut more)
}

// ---- the examples

// An array of true and -2, with a number that was set before the walk: behind its three events, and where the third would begin, with room for two. Then room
// for two events, and for none.
fn room_examples<W: Write>(out: &mut W) -> io::Result<()> {
    let doc = b"\x02\x02\x00\x0A\x00\x04\x01\x00\x05\xFE\xFF";
    let mut lent = [0u32; 72];
    lent[27] = 77;
    lend(out, doc, &mut lent)?;
    writeln!(out, "then number 27, which was 77: {}", lent[27])?;
    let mut lent = [0u32; 26];
    lent[18] = 78;
    lend(out, doc, &mut lent)?;
    writeln!(out, "then number 18, which was 78: {}", lent[18])?;
    for room in [18, 8, 0] {
        lend(out, doc, &mut lent[..room])?;
    }
    Ok(())
}

// Documents that are walked with room for eight events.
fn document_examples<W: Write>(out: &mut W) -> io::Result<()> {
    let docs = [
        // An object whose member a is Zoë; then its last byte ends no character; then the key's offset is before the header's end.
        &b"\x00\x01\x00\x11\x00\x0B\x00\x01\x00\x0C\x0C\x00\x61\x04\x5A\x6F\xC3\xAB"[..],
        b"\x00\x01\x00\x11\x00\x0B\x00\x01\x00\x0C\x0C\x00\x61\x04\x5A\x6F\xC3\x22",
        b"\x00\x01\x00\x11\x00\x0A\x00\x01\x00\x0C\x0C\x00\x61\x04\x5A\x6F\xC3\xAB",
        // A root string and a key that are not UTF-8; a root string that cuts a character, and the same before the byte that would go on.
        b"\x0C\x01\xFF",
        b"\x00\x01\x00\x0C\x00\x0B\x00\x01\x00\x04\x01\x00\xFF",
        b"\x0C\x02\xE2\x82",
        b"\x0C\x02\xE2\x82\xAC",
        // Two members with the key a, and two elements that are the same bytes: none is left out.
        b"\x00\x02\x00\x14\x00\x12\x00\x01\x00\x13\x00\x01\x00\x04\x01\x00\x05\xFE\xFF\x61\x61",
        b"\x02\x02\x00\x0C\x00\x0C\x0A\x00\x0C\x0A\x00\x01\x41",
        // Containers in containers, whose events the last numbers of those in them name: arrays in an array; the same where the second holds a literal that is
        // none; an object whose second member comes after what is in the first.
        b"\x02\x02\x00\x18\x00\x02\x0A\x00\x02\x11\x00\x01\x00\x07\x00\x04\x01\x00\x01\x00\x07\x00\x05\xFE\xFF",
        b"\x02\x02\x00\x18\x00\x02\x0A\x00\x02\x11\x00\x01\x00\x07\x00\x04\x01\x00\x01\x00\x07\x00\x04\x03\x00",
        b"\x00\x02\x00\x1B\x00\x12\x00\x01\x00\x13\x00\x01\x00\x02\x14\x00\x05\xFE\xFF\x61\x62\x01\x00\x07\x00\x04\x01\x00",
        // A large object of a double, an Int32 within its entry, a decimal, an empty array and a Uint64.
        b"\x01\x05\x00\x00\x00\x5E\x00\x00\x00\x3F\x00\x00\x00\x01\x00\x40\x00\x00\x00\x01\x00\x41\x00\x00\x00\x01\x00\x42\x00\x00\x00\x01\x00\x43\x00\x00\x00\x01\x00\x0B\x44\x00\x00\x00\x07\xFE\xFF\xFF\xFF\x0F\x4C\x00\x00\x00\x02\x52\x00\x00\x00\x0A\x56\x00\x00\x00\x64\x69\x6F\x73\x75\x00\x00\x00\x00\x00\x00\xF8\x3F\xF6\x04\x04\x02\x8C\x22\x00\x00\x04\x00\x00\x00\x00\x00\x00\x00\x00\x80",
        // Bytes after the root, and the empty document.
        b"\x04\x01\xFF\x00",
        b"",
    ];
    for doc in docs {
        let mut lent = [0u32; 72];
        lend(out, doc, &mut lent)?;
    }
    Ok(())
}

fn examples(out: &mut Output<'_>) -> io::Result<()> {
    room_examples(out)?;
    document_examples(out)?;
    nested_examples(out)?;
    out.flush()
}

// A failed write ends it, and is not told.
fn main(rt: HostRuntime) {
    let mut room = [0u8; 4096];
    let _ = examples(&mut Output::new(rt.stdout(), &mut room));
}
