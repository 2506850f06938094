// How far a text is ASCII: bytes below 128, found in words of eight and blocks of words.
#![tactic(auto)]

ghost use Rattle.std.specs.Prelude.{◌≡◌, ◌==◌, ◌+◌, ◌*◌, ◌/◌, ◌≤◌, ◌<◌, min, nat_le, nat_lt, length};
ghost use Rattle.std.specs.List.{prefix_len};
ghost use Rattle.std.specs.Int.{w64, trailing_zeros};
ghost use Rattle.ascii.specs.Ascii.{ascii_end, front};

// The top bits of eight bytes.
const TOPS: u64 = 0x8080_8080_8080_8080;

// The top bits of the next N bytes.
fn tops<const N: usize>(s: &[u8], at: usize) -> u64
    requires width { N ≤ 8 }
    requires all_there { at + N ≤ length s.now }
    ensures clear { (result == 0) ≡ nat_le (at + N) (ascii_end s.now at) }
    ensures first { N ≡ 8 → at + trailing_zeros w64 result / 8 ≡ min (at + 8) (ascii_end s.now at) }
{
    raw::number_of(&s[at..at + N]) & TOPS
}

// Whether the next W words are all ASCII. They are put together and tested at once, by vectors.
fn are_ascii<const W: usize>(s: &[u8], at: usize) -> bool
    requires { at + 8 * W ≤ length s.now }
    ensures { result ≡ nat_le (at + 8 * W) (ascii_end s.now at) }
{
    let mut all = 0;
    for k in 0..W {
        all |= tops::<8>(s, at + 8 * k);
    }
    all == 0
}

// Past the ASCII among the next W words.
fn past<const W: usize>(s: &[u8], at: usize) -> usize
    requires { at + 8 * W ≤ length s.now }
    ensures { result ≡ min (at + 8 * W) (ascii_end s.now at) }
{
    for k in 0..W {
        let word = tops::<8>(s, at + 8 * k);
        if word != 0 {
            return at + 8 * k + word.trailing_zeros() as usize / 8;
        }
    }
    at + 8 * W
}

// How many bytes at the front are ASCII, one by one.
fn leading(s: &[u8]) -> usize
    ensures value { result ≡ prefix_len (λ b. nat_lt b 128) s.now }
    ensures within { result ≤ length s.now }
{
    s.iter().take_while(|b| **b < 128).count()
}

// Past W words, where they are there and all ASCII.
fn step<const W: usize>(s: &[u8], at: usize) -> usize
    requires width { W ≤ 8 }
    requires at_in_bounds { at ≤ length s.now }
    ensures within { (at ≤ result) × (result ≤ ascii_end s.now at) }
    ensures near { ascii_end s.now at < at + 16 * W → ascii_end s.now at < result + 8 * W }
{
    if at + 8 * W <= s.len() && are_ascii::<W>(s, at) {
        at + 8 * W
    } else {
        at
    }
}

// The place of the first byte from a place on that is not ASCII, or the end: the first word tells of most texts that are not all ASCII, then go blocks
// of words and halves of a block. Less than a word is left then, and the last word of the text may begin among bytes that are passed.
pub fn ascii_end(s: &[u8], at: usize) -> usize
    ensures { result ≡ ascii_end s.now at }
{
    if s.len() <= at {
        return at;
    }
    if s.len() - at < 8 {
        return at + leading(&s[at..]);
    }
    let word = tops::<8>(s, at);
    if word != 0 {
        return at + word.trailing_zeros() as usize / 8;
    }
    let mut i = at + 8;
    // a `for` over the blocks would need their place beside it
    while i + 64 <= s.len() && are_ascii::<8>(s, i) {
        i += 64;
    }
    let i = step::<1>(s, step::<2>(s, step::<4>(s, i)));
    past::<1>(s, i.min(s.len() - 8))
}

// The same from the front of a text of fewer than 8 bytes, in few steps: its first bytes and its last bytes, which may overlap, are two blocks.
// Of a longer text nothing is read, and the answer is 0.
#[tactic(auto, using(crate::proofs::Low::low_prefix), unfolding(crate::specs::Ascii::front))]
pub fn front8(s: &[u8]) -> usize
    ensures { result ≡ front 8 s.now }
{
    let n = s.len();
    if 8 <= n {
        return 0;
    }
    if 4 <= n && tops::<4>(s, 0) == 0 && tops::<4>(s, n - 4) == 0 {
        return n;
    }
    leading(s)
}

// The first W words and the last ones, which may overlap, are all of a text.
fn ends<const W: usize>(s: &[u8]) -> usize
    requires { (8 * W ≤ length s.now) × (length s.now ≤ 16 * W) }
    ensures { result ≡ ascii_end s.now 0 }
{
    let at = if are_ascii::<W>(s, 0) {
        s.len() - 8 * W
    } else {
        0
    };
    past::<W>(s, at)
}

// The same of a text of fewer than 64 bytes.
#[tactic(auto, using(crate::proofs::Low::low_prefix), unfolding(crate::specs::Ascii::front))]
pub fn front64(s: &[u8]) -> usize
    ensures { result ≡ front 64 s.now }
{
    match s.len() {
        0..8 => leading(s),
        8..16 => ends::<1>(s),
        16..32 => ends::<2>(s),
        32..64 => ends::<4>(s),
        _ => 0,
    }
}
