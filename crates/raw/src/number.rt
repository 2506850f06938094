// Little-endian numbers. A byte that is not there, or stands at the end or past it, counts as 0. Place and end may be any numbers, so no type holds the two, as
// `Window` of `header` does where a document has them.
ghost use Rattle.std.specs.Prelude.{◌≡◌, ◌+◌, ◌-◌, ◌^◌, ◌≤◌, ◌<◌, min, length, take, drop};
ghost use Rattle.raw.specs.Numbers.{value, le};

// How many bytes stand at a place, before the end.
pub fn left(doc: &[u8], at: usize, end: usize) -> usize
    ensures { result ≡ min end (length doc.now) - at }
{
    end.min(doc.len()).saturating_sub(at)
}

// The number that a part's first eight bytes write, or all of fewer. Always inlined: where a caller's code says the length, this is one load.
#[tactic(auto, using(crate::proofs::Filled::filled))]
#[inline(always)]
pub fn number_of(part: &[u8]) -> u64
    ensures value { result ≡ value (take 8 part.now) }
    ensures upper_bound { result < 256 ^ length part.now }
{
    let part = &part[..part.len().min(8)];
    let mut bytes = [0; 8];
    bytes[..part.len()].copy_from_slice(part);
    u64::from_le_bytes(bytes)
}

// The number that up to eight bytes write. They are put together one by one, from the last: a copy of a length that the compiler does not know is a call of
// memcpy, and the archive for C may need no function from outside.
fn few(part: &[u8]) -> u64
    requires { length part.now ≤ 8 }
    ensures { result ≡ value part.now }
{
    let mut x = 0;
    for k in (0..part.len()).rev() {
        x = 256 * x + u64::from(part[k]);
    }
    x
}

// The number of those of W bytes that are there. The three widths have names of their own below, which ask nothing of a caller.
fn le_at<const W: usize>(doc: &[u8], at: usize, end: usize) -> u64
    requires { W ≤ 8 }
    ensures value { result ≡ le W doc.now at end }
    ensures upper_bound { result < 256 ^ W }
{
    match left(doc, at, end) {
        // the place may lie past the document
        0 => 0,
        n if n < W => few(&doc[at..at + n]),
        _ => number_of(&doc[at..at + W]),
    }
}

// The two bytes at a place.
pub fn u16_at(doc: &[u8], at: usize, end: usize) -> u64
    ensures value { result ≡ le 2 doc.now at end }
    ensures upper_bound { result < 65536 }
{
    le_at::<2>(doc, at, end)
}

// The four bytes at a place.
pub fn u32_at(doc: &[u8], at: usize, end: usize) -> u64
    ensures value { result ≡ le 4 doc.now at end }
    ensures upper_bound { result < 4294967296 }
{
    le_at::<4>(doc, at, end)
}

// The eight bytes at a place.
pub fn u64_at(doc: &[u8], at: usize, end: usize) -> u64
    ensures { result ≡ le 8 doc.now at end }
{
    le_at::<8>(doc, at, end)
}
