// The answer to the question about the walk.
#![tactic(auto)]

use asked::{Asked, Fault};
use std::io;
use std::io::Write;
use walk::Stopped;

// The greatest room for events.
const EVENTS: u32 = 1820;

// With room for so many events: their count, the numbers of each, and what stopped the walk.
pub fn walk<W: Write>(out: &mut W, asked: &mut Asked<'_>) -> Result<(), Fault> {
    let room = events::WIDE * asked.number_to(EVENTS)? as usize;
    let doc = asked.last_bytes()?;
    write_walk(out, room, doc)?;
    Ok(())
}

// (A function pays at its entry for what it holds: this one is called once the line is known to be a request.)
fn write_walk<W: Write>(out: &mut W, room: usize, doc: &[u8]) -> io::Result<()> {
    let mut numbers = [0u32; 16384];
    let lent = &mut numbers[..room.min(16384)];
    let walked = walk::walk(doc, lent);
    let count = match walked {
        Ok(count) => count,
        Err(stopped) => stopped.count,
    };
    write!(out, "{count}")?;
    for event in numbers.chunks_exact(events::WIDE).take(count) {
        write!(out, " /")?;
        for n in event {
            write!(out, " {n}")?;
        }
    }
    if let Err(Stopped { refusal, place, .. }) = walked {
        write!(out, " refused {} at {place}", refusal.number())?;
    }
    Ok(())
}
