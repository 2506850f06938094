// Writes texts by themselves through a room of eight bytes, and how many bytes of each are taken: a text that is longer than the room goes past it.
#![tactic(auto)]

use output::Output;
use std::io;
use std::io::Write;

fn examples(out: &mut Output<'_>) -> io::Result<()> {
    for text in [
        "",
        "a",
        "a room",
        "eight by",
        "nine byte",
        "longer than any room of eight",
    ] {
        let n = out.write(text.as_bytes())?;
        writeln!(out, ": {n} of {}", text.len())?;
    }
    out.flush()
}

// A failed write ends it, and is not told.
fn main(rt: HostRuntime) {
    let mut room = [0u8; 8];
    let _ = examples(&mut Output::new(rt.stdout(), &mut room));
}
