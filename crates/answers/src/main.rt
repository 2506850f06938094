// answers: reads requests from standard input, one to a line, and writes one line for each.
#![tactic(auto)]

mod answer;
mod lines;

use lines::{Came, Lines};
use output::Output;
use std::io;
use std::io::{Read, Write};

// What ended the run before the input did.
enum Failure {
    Input,
    Output,
}

impl From<io::Error> for Failure {
    fn from(_: io::Error) -> Failure {
        Failure::Output
    }
}

// Answers all lines, those that are held before each read. Nothing says that the input ends: the turns are counted up to a number that no run reaches.
fn answer_all<R: Read>(
    input: &mut R,
    lines: &mut Lines<'_>,
    out: &mut Output<'_>,
    bytes: &mut [u8],
) -> Result<(), Failure> {
    for _ in 0..u64::MAX {
        if let Some(line) = lines.next() {
            answer::write_answer(out, line, bytes)?;
            continue;
        }
        out.flush()?;
        match lines.read(input) {
            Ok(Came::Bytes) => {}
            Ok(Came::TooMuch) => writeln!(out, "long")?,
            Ok(Came::End) => break,
            Err(_) => return Err(Failure::Input),
        }
    }
    // The last line may have no end.
    if !lines.rest().is_empty() {
        answer::write_answer(out, lines.rest(), bytes)?;
    }
    out.flush()?;
    Ok(())
}

fn main(rt: HostRuntime) {
    let mut room = [0u8; 65536];
    let mut held = [0u8; 65536];
    let mut bytes = [0u8; answer::BYTES];
    let mut out = Output::new(rt.stdout(), &mut room);
    let mut lines = Lines::new(&mut held);
    let said = match answer_all(&mut rt.stdin(), &mut lines, &mut out, &mut bytes) {
        Ok(()) => return,
        Err(Failure::Input) => "answers: standard input cannot be read\n",
        Err(Failure::Output) => "answers: standard output cannot be written\n",
    };
    let _ = rt.stderr().write_all(said.as_bytes());
}
