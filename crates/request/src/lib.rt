// The parts of a request, a line of words with one space between two: where a byte stands, and the number that decimal digits write.
#![tactic(auto)]

ghost use Rattle.std.specs.Prelude.{◌≡◌, ◌==◌, ◌+◌, ◌≤◌, not, length, drop};
ghost use Rattle.std.specs.List.{prefix_len};
ghost use Rattle.request.specs.Find.{before};
ghost use Rattle.request.specs.Number.{number_of};

// How many bytes stand before the first such byte.
fn before(text: &[u8], byte: u8) -> usize
    ensures value { result ≡ prefix_len (λ b. not (b == byte)) text.now }
    ensures within { result ≤ length text.now }
{
    text.iter().take_while(|b| **b != byte).count()
}

// The place of the first such byte at or past a place, else the text's end; the place itself where it is past that.
pub fn find(text: &[u8], from: usize, byte: u8) -> usize
    ensures { result ≡ from + before byte (drop from text.now) }
{
    match text.get(from..) {
        Some(rest) => from + before(rest, byte),
        None => from,
    }
}

// The number that one or more digits write; zeros in front do not matter.
pub fn number(text: &[u8]) -> Option<u32>
    ensures { result ≡ number_of text.now }
{
    if text.is_empty() {
        return None;
    }
    let mut n: u32 = 0;
    for b in text {
        if !b.is_ascii_digit() {
            return None;
        }
        n = n.checked_mul(10)?.checked_add(u32::from(b - b'0'))?;
    }
    Some(n)
}
