// What programs write: words for standard output, which wait in a room that the caller lends; answers, bytes and texts as words; and what a function writes to a
// room.
#![tactic(auto)]

ghost use Rattle.std.specs.Prelude.{◌≡◌, ◌*◌, ◌<◌, ◌≤◌, ◌==◌, false, length, take, drop, min, MatchResult, IsOkAnd, Err};
ghost use Rattle.std.specs.List.{list_all};
ghost use Rattle.std.specs.Fmt.{digit_glyph};
ghost use Rattle.output.specs.Words.{hex, kept_word, written_len};

use refusal::Refusal;
use std::fmt::{Display, Formatter};
use std::io::{Stdout, Write};
use std::{fmt, io};

// A room of any length, and how much of it waits to be written. What does not fit is written first; a text that is longer than the room is written as it
// is. (std's BufWriter takes its room from an allocator, and nothing here is taken from one.)
#[derive(Drop)]
pub struct Output<'a> {
    to: Stdout,
    room: &'a mut [u8],
    len: usize,
    ghost filled: { len ≤ length room.now },
}

impl<'a> Output<'a> {
    pub fn new(to: Stdout, room: &'a mut [u8]) -> Output<'a> {
        Output { to, room, len: 0 }
    }
}

impl Output<'_> {
    // Writes what waits, and then a text that had no room behind it.
    fn write_anew(&mut self, text: &[u8]) -> io::Result<()> {
        self.flush()?;
        let n = text.len();
        if self.room.len() - self.len < n {
            return self.to.write_all(text);
        }
        self.room[self.len..self.len + n].copy_from_slice(text);
        self.len += n;
        Ok(())
    }
}

impl Write for Output<'_> {
    // Where it fails, no byte of the text was written: one that is longer than the room goes to standard output once, and what that takes is said.
    fn write(&mut self, text: &[u8]) -> io::Result<usize> {
        let n = text.len();
        if self.room.len() - self.len < n {
            self.flush()?;
        }
        if self.room.len() - self.len < n {
            return self.to.write(text);
        }
        self.room[self.len..self.len + n].copy_from_slice(text);
        self.len += n;
        Ok(n)
    }

    fn flush(&mut self) -> io::Result<()> {
        self.to.write_all(&self.room[..self.len])?;
        self.len = 0;
        Ok(())
    }

    // Mostly a text fits: it is copied where it is written, and a lone byte, such as a space, is stored.
    #[inline(always)]
    fn write_all(&mut self, text: &[u8]) -> io::Result<()> {
        let n = text.len();
        if self.room.len() - self.len < n {
            return self.write_anew(text);
        }
        if n == 1 {
            self.room[self.len] = text[0];
        } else {
            self.room[self.len..self.len + n].copy_from_slice(text);
        }
        self.len += n;
        Ok(())
    }
}

// ---- words

// An answer, or the number of its refusal.
#[derive(Clone, Copy)]
pub struct Answer<T>(pub Result<T, Refusal>);

impl<T: Display> Display for Answer<T> {
    ghost use Rattle.output.specs.Words.{answer_words};

    ghost output = { λ a. answer_words T.output a.0 };

    fn fmt<W: fmt::Write>(&self, f: &mut Formatter<W>) -> fmt::Result {
        match &self.0 {
            Ok(x) => x.fmt(f),
            Err(r) => write!(f, "refused {}", r.number()),
        }
    }
}

// Something, or a word for nothing.
#[derive(Clone, Copy)]
pub struct Or<T>(pub Option<T>, pub &'static str);

impl<T: Display> Display for Or<T> {
    ghost use Rattle.output.specs.Words.{words_or};

    ghost output = { λ o. words_or T.output o.1.now o.0 };

    fn fmt<W: fmt::Write>(&self, f: &mut Formatter<W>) -> fmt::Result {
        match &self.0 {
            Some(x) => write!(f, "{x}"),
            None => write!(f, "{}", self.1),
        }
    }
}

// A hexadecimal digit.
fn digit(d: u8) -> u8
    requires { d < 16 }
    ensures { result ≡ digit_glyph false d }
{
    if d < 10 { b'0' + d } else { b'a' + (d - 10) }
}

// How many bytes are written at once.
const PIECE: usize = 16;

// Puts two hexadecimal digits for each byte to the front of a text.
#[tactic(auto, using(crate::proofs::Digits::two_more))]
fn put_digits(bytes: &[u8], text: &mut [u8])
    requires { 2 * length bytes.now ≤ length text.old }
    ensures { take (2 * length bytes.now) text.new ≡ hex bytes.now }
{
    for (i, b) in bytes.iter().enumerate() {
        text[2 * i] = digit(*b / 16);
        text[2 * i + 1] = digit(*b % 16);
    }
}

// Bytes in hexadecimal digits.
#[derive(Clone, Copy)]
pub struct Hex<'a>(pub &'a [u8]);

impl Display for Hex<'_> {
    ghost use Rattle.std.specs.Prelude.{Some};
    ghost use Rattle.output.specs.Words.{hex};

    ghost output = { λ h. Some (hex h.0.now) };

    #[tactic(auto, using(crate::proofs::Digits::piece_more))]
    fn fmt<W: fmt::Write>(&self, f: &mut Formatter<W>) -> fmt::Result {
        let mut rest = self.0;
        while !rest.is_empty() {
            let (bytes, more) = rest.split_at(rest.len().min(PIECE));
            let mut text = [0u8; 2 * PIECE];
            put_digits(bytes, &mut text);
            let Ok(digits) = std::str::from_utf8(&text[..2 * bytes.len()]) else {
                return Err(fmt::Error);
            };
            f.write_str(digits)?;
            rest = more;
        }
        Ok(())
    }
}

// The same, and - for none.
#[derive(Clone, Copy)]
pub struct HexWord<'a>(pub &'a [u8]);

impl Display for HexWord<'_> {
    ghost use Rattle.std.specs.Prelude.{Some};
    ghost use Rattle.output.specs.Words.{hex_word};

    ghost output = { λ h. Some (hex_word h.0.now) };

    fn fmt<W: fmt::Write>(&self, f: &mut Formatter<W>) -> fmt::Result {
        if self.0.is_empty() {
            return write!(f, "-");
        }
        write!(f, "{}", Hex(self.0))
    }
}

// Bytes of ASCII as text.
#[derive(Clone, Copy)]
pub struct Ascii<'a>(pub &'a [u8]);

impl Display for Ascii<'_> {
    ghost use Rattle.std.specs.Prelude.{Some};
    ghost use Rattle.output.specs.Words.{characters};

    ghost output = { λ a. Some (characters a.0.now) };

    #[tactic(auto, using(crate::proofs::Digits::characters_ascii))]
    fn fmt<W: fmt::Write>(&self, f: &mut Formatter<W>) -> fmt::Result {
        if let Ok(text) = std::str::from_utf8(self.0)
            && text.is_ascii()
        {
            return f.write_str(text);
        }
        for b in self.0 {
            write!(f, "{}", char::from(*b))?;
        }
        Ok(())
    }
}

// ---- what a function writes to a room

// The bytes of the room.
pub const ROOM: usize = 128;

// What a byte of the room holds before.
const FILL: u8 = 165;

// A room to whose first bytes something was written: how many they are, or a refusal.
#[derive(Clone, Copy)]
pub struct Written {
    room: [u8; ROOM],
    len: Result<usize, Refusal>,
}

impl Written {
    // By a function that is lent so many bytes of the room, or all.
    pub fn by<F: FnOnce(&mut [u8]) -> Result<usize, Refusal>>(lent: usize, write: F) -> Written
        requires { F.IsAlwaysCallable write }
    {
        let mut room = [FILL; ROOM];
        let len = write(&mut room[..lent.min(ROOM)]);
        Written { room, len }
    }

    // What was written, or the refusal.
    pub fn bytes(&self) -> Result<&[u8], Refusal>
        ensures { MatchResult self.now.len (λ n. IsOkAnd result (λ b. b.now ≡ take n self.now.room)) (λ r. result ≡ Err r) }
    {
        let n = self.len?;
        Ok(&self.room[..n.min(ROOM)])
    }

    // Whether every byte behind the written ones is as it was.
    pub fn is_kept(&self) -> bool
        ensures { result ≡ list_all (λ b. b == 165) (drop (min (written_len self.now.len) 128) self.now.room) }
    {
        let n = self.len.unwrap_or(0);
        is_filled(&self.room[n.min(ROOM)..])
    }
}

fn is_filled(room: &[u8]) -> bool
    ensures { result ≡ list_all (λ b. b == 165) room.now }
{
    room.iter().all(|b| *b == FILL)
}

pub fn kept(is_kept: bool) -> &'static str
    ensures { result.now ≡ kept_word is_kept }
{
    if is_kept { "kept" } else { "touched" }
}
