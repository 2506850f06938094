// The lines of an input, gathered in a room that the caller lends.
ghost use Rattle.std.specs.Prelude.{◌≤◌, length};

use std::io;
use std::io::Read;

const NEWLINE: u8 = b'\n';

// What a read brought.
pub(crate) enum Came {
    Bytes,
    // The first byte behind a line that fills the room without an end.
    TooMuch,
    End,
}

// What is read and not yet taken stands from one place of the room to another. Up to a third its line's end was looked for already: a line that comes in many
// reads is searched once.
#[derive(Drop)]
pub(crate) struct Lines<'a> {
    room: &'a mut [u8],
    at: usize,
    seen: usize,
    end: usize,
    // Whether what comes next is still of a line that was too long.
    is_skipped: bool,
    ghost ordered: { (at ≤ seen) × (seen ≤ end) },
    ghost inside: { end ≤ length room.now },
}

impl<'a> Lines<'a> {
    pub(crate) fn new(room: &'a mut [u8]) -> Lines<'a> {
        Lines {
            room,
            at: 0,
            seen: 0,
            end: 0,
            is_skipped: false,
        }
    }

    // Takes the next line that has ended: it comes without its end.
    pub(crate) fn next(&mut self) -> Option<&[u8]> {
        let from = self.at;
        let to = request::find(&self.room[..self.end], self.seen, NEWLINE);
        if self.end <= to {
            self.seen = self.end;
            return None;
        }
        self.at = to + 1;
        self.seen = to + 1;
        Some(&self.room[from..to])
    }

    // What is left, a line that has not ended.
    pub(crate) fn rest(&self) -> &[u8] {
        &self.room[self.at..self.end]
    }

    // Reads on behind what is left. A line that is too long is skipped, up to its end.
    pub(crate) fn read<R: Read>(&mut self, input: &mut R) -> io::Result<Came> {
        if self.rest().len() == self.room.len() {
            return self.read_past(input);
        }
        self.room[..self.end].rotate_left(self.at);
        self.end -= self.at;
        self.seen -= self.at;
        self.at = 0;
        let n = input.read(&mut self.room[self.end..])?;
        if n == 0 {
            return Ok(Came::End);
        }
        self.end += n;
        if self.is_skipped {
            self.is_skipped = self.next().is_none();
        }
        if self.is_skipped {
            self.at = self.end;
            self.seen = self.end;
        }
        Ok(Came::Bytes)
    }

    // The room is full: the line is too long unless the input ends here.
    fn read_past<R: Read>(&mut self, input: &mut R) -> io::Result<Came> {
        let mut one = [0u8; 1];
        if input.read(&mut one)? == 0 {
            return Ok(Came::End);
        }
        self.at = self.end;
        self.seen = self.end;
        self.is_skipped = one[0] != NEWLINE;
        Ok(Came::TooMuch)
    }
}
