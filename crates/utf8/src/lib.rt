// Whether bytes are UTF-8 by RFC 3629, and where they break. ASCII is passed in words, and characters of two bytes at the front in blocks; any other
// character goes byte by byte.
#![tactic(auto)]

ghost use Rattle.std.specs.Prelude.{◌≡◌, ◌+◌, ◌≤◌, ◌<◌, length, get_or};
ghost use Rattle.rfc3629.specs.Machine.{least, most};
ghost use Rattle.utf8.specs.Answer.{Tells, checked};
ghost use Rattle.utf8.specs.Course.{Runs, Takes, Leads};

use ascii::{ascii_end, front8, front64};
use pairs::{is_tail, pairs_end};

// Where bytes that are not UTF-8 break: at the first byte that can neither begin nor continue a character there; of a character that is cut at the end, at
// the end.
#[derive(Clone, Copy, Debug, PartialEq, Eq)]
pub struct Utf8Error {
    pub place: usize,
}

// A byte from `lo` to `hi` has to stand there.
fn need(s: &[u8], at: usize, lo: u8, hi: u8) -> Result<(), Utf8Error>
    ensures { Takes lo hi s.now at result }
{
    match s.get(at) {
        Some(b) if lo <= *b && *b <= hi => Ok(()),
        _ => Err(Utf8Error { place: at }),
    }
}

// A second byte has to stand there that may follow the first byte `b` of a character of three bytes or of four.
fn second(s: &[u8], at: usize, b: u8) -> Result<(), Utf8Error>
    requires { 224 ≤ b }
    ensures three { b < 240 → Takes (least b 224 160) (most b 237 159) s.now at result }
    ensures four { 240 ≤ b → Takes (least b 240 144) (most b 244 143) s.now at result }
{
    match b {
        224 => need(s, at, 160, 191),
        237 => need(s, at, 128, 159),
        240 => need(s, at, 144, 191),
        244 => need(s, at, 128, 143),
        _ => need(s, at, 128, 191),
    }
}

// Past a character of two bytes, whose first byte is from 80 to DF. These four are part of the loop: a call takes as long as a character.
#[inline(always)]
fn past_two(s: &[u8], at: usize) -> Result<usize, Utf8Error>
    requires at_in_bounds { at < length s.now }
    requires bound { (128 ≤ get_or s.now at 0) × (get_or s.now at 0 < 224) }
    ensures { Leads (at + 1) s.now at result }
{
    if s[at] < 194 {
        return Err(Utf8Error { place: at });
    }
    need(s, at + 1, 128, 191)?;
    Ok(at + 2)
}

// Past one of three bytes, whose first byte is from E0 to EF.
#[inline(always)]
fn past_three(s: &[u8], at: usize) -> Result<usize, Utf8Error>
    requires at_in_bounds { at < length s.now }
    requires bound { (224 ≤ get_or s.now at 0) × (get_or s.now at 0 < 240) }
    ensures { Leads (at + 1) s.now at result }
{
    second(s, at + 1, s[at])?;
    need(s, at + 2, 128, 191)?;
    Ok(at + 3)
}

// Past one of four bytes, whose first byte is F0 or above.
#[inline(always)]
fn past_four(s: &[u8], at: usize) -> Result<usize, Utf8Error>
    requires at_in_bounds { at < length s.now }
    requires bound { 240 ≤ get_or s.now at 0 }
    ensures { Leads (at + 1) s.now at result }
{
    if 244 < s[at] {
        return Err(Utf8Error { place: at });
    }
    second(s, at + 1, s[at])?;
    need(s, at + 2, 128, 191)?;
    need(s, at + 3, 128, 191)?;
    Ok(at + 4)
}

// Past one character.
#[inline(always)]
fn past_char(s: &[u8], at: usize) -> Result<usize, Utf8Error>
    requires { at < length s.now }
    ensures { Leads (at + 1) s.now at result }
{
    match s[at] {
        0..128 => Ok(at + 1),
        128..224 => past_two(s, at),
        224..240 => past_three(s, at),
        240.. => past_four(s, at),
    }
}

// Past the ASCII at the front of a short text.
fn front(s: &[u8]) -> usize
    requires { 8 ≤ length s.now }
    ensures { Runs s.now 0 result }
{
    if s[0] < 128 { front64(s) } else { 0 }
}

// Whether much of what follows is ASCII, told by three bytes: it is left to words then. No answer is wrong.
fn is_plain(s: &[u8], at: usize) -> bool
    requires { at + 8 < length s.now }
{
    s[at] < 128 && s[at + 3] < 128 && s[at + 8] < 128
}

// Past characters of one and two bytes, as far as blocks tell. A block ends behind a character, or behind the first byte of one.
fn past_pairs(s: &[u8], at: usize) -> usize
    requires { at ≤ length s.now }
    ensures { Runs s.now at result }
{
    if s.len() < 17 {
        return at;
    }
    if s.len() - 17 < at || is_plain(s, at) || 224 <= s[at] || is_tail(s[at]) {
        return at;
    }
    let j = pairs_end(s, at);
    if is_tail(s[j]) {
        return j + 1;
    }
    j
}

// From the front to the last three bytes. Up to there four bytes follow every place, so that the compiler leaves out the tests for the end.
fn quick(s: &[u8]) -> Result<usize, Utf8Error>
    ensures { Leads 0 s.now 0 result }
{
    if s.len() < 8 {
        return Ok(front8(s));
    }
    let hot = s.len() - 3;
    let mut i = past_pairs(s, front(s));
    // each turn ends where its character does, here and in the loop below, which no range of places tells
    while i < hot {
        // one ASCII byte alone, as a space between words, is not worth a word's test
        i = if s[i] < 128 && s[i + 1] < 128 {
            ascii_end(s, i)
        } else {
            past_char(s, i)?
        };
    }
    Ok(i)
}

// Whether the bytes are UTF-8, and where they break.
pub fn utf8_check(s: &[u8]) -> Result<(), Utf8Error>
    ensures value { result ≡ checked s.now }
    ensures tells { Tells s.now result }
{
    let mut i = quick(s)?;
    while i < s.len() {
        i = past_char(s, i)?;
    }
    Ok(())
}
