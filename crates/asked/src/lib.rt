// What a line asks: its words, with one space between two, and the numbers and the bytes that they write. A word that is not what is asked for makes the line no
// request.
#![tactic(auto)]

ghost use Rattle.std.specs.Prelude.{◌≤◌, IfOk};

use std::io;

// A word is not what is asked for. (What takes the words says no more: a Fault holds all of an error, and would be handed on at each word.)
#[derive(Clone, Copy)]
pub struct NoRequest;

// Why a line is not answered.
#[derive(Clone, Copy)]
pub enum Fault {
    // It is no request.
    NoRequest,
    // The answer cannot be written.
    Unwritten(io::Error),
}

impl From<io::Error> for Fault {
    fn from(e: io::Error) -> Fault {
        Fault::Unwritten(e)
    }
}

impl From<NoRequest> for Fault {
    fn from(_: NoRequest) -> Fault {
        Fault::NoRequest
    }
}

// The words that are left of a line, nothing behind the last one, and a room for the bytes that one of them writes.
#[derive(Drop)]
pub struct Asked<'a> {
    words: Option<&'a [u8]>,
    room: &'a mut [u8],
}

impl<'a> Asked<'a> {
    pub fn new(line: &'a [u8], room: &'a mut [u8]) -> Asked<'a> {
        let words = Some(line);
        Asked { words, room }
    }

    #[inline(always)]
    pub fn word(&mut self) -> Result<&'a [u8], NoRequest> {
        let words = self.words.ok_or(NoRequest)?;
        match words.iter().position(|b| *b == b' ') {
            Some(end) => {
                self.words = Some(&words[end + 1..]);
                Ok(&words[..end])
            }
            None => {
                self.words = None;
                Ok(words)
            }
        }
    }

    pub fn number(&mut self) -> Result<u32, NoRequest> {
        request::number(self.word()?).ok_or(NoRequest)
    }

    // A number that is no greater than another.
    pub fn number_to(&mut self, most: u32) -> Result<u32, NoRequest>
        ensures { IfOk result (λ n. n ≤ most) }
    {
        let n = self.number()?;
        if most < n {
            return Err(NoRequest);
        }
        Ok(n)
    }

    // 1 for yes, 0 for no.
    pub fn flag(&mut self) -> Result<bool, NoRequest> {
        Ok(self.number_to(1)? == 1)
    }

    pub fn bytes(&mut self) -> Result<&[u8], NoRequest> {
        let word = self.word()?;
        self.written(word)
    }

    // The bytes that the last word writes. It is all that is left: a space is no digit.
    pub fn last_bytes(&mut self) -> Result<&[u8], NoRequest> {
        let word = self.words.take().ok_or(NoRequest)?;
        self.written(word)
    }

    fn written(&mut self, word: &[u8]) -> Result<&[u8], NoRequest> {
        let n = hexadecimal::bytes(word, self.room).ok_or(NoRequest)?;
        self.room.get(..n).ok_or(NoRequest)
    }

    // That no word is left.
    pub fn end(&mut self) -> Result<(), NoRequest> {
        match self.words {
            None => Ok(()),
            Some(_) => Err(NoRequest),
        }
    }
}
