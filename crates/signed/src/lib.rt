// Signed little-endian numbers: the upper half of the patterns of so many bits stands for the numbers below 0. What is not there counts as 0, as in `raw`, and
// place and end may be any numbers, so that no type holds the two.
#![tactic(auto)]

ghost use Rattle.std.specs.Prelude.{◌≡◌};
ghost use Rattle.std.specs.Int.{w16, w32, w64, cast_signed};
ghost use Rattle.raw.specs.Numbers.{le};

use raw::{u16_at, u32_at, u64_at};

// The two, four and eight bytes at a place. Each is a call of the method of its own width, so one function over the width would be no shorter.
pub fn i16_at(doc: &[u8], at: usize, end: usize) -> i64
    ensures { result ≡ cast_signed w16 (le 2 doc.now at end) }
{
    i64::from((u16_at(doc, at, end) as u16).cast_signed())
}

pub fn i32_at(doc: &[u8], at: usize, end: usize) -> i64
    ensures { result ≡ cast_signed w32 (le 4 doc.now at end) }
{
    i64::from((u32_at(doc, at, end) as u32).cast_signed())
}

pub fn i64_at(doc: &[u8], at: usize, end: usize) -> i64
    ensures { result ≡ cast_signed w64 (le 8 doc.now at end) }
{
    u64_at(doc, at, end).cast_signed()
}
