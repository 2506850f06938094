// The bytes that hexadecimal digits write, two to a byte.
#![tactic(auto)]

ghost use Rattle.std.specs.Prelude.{◌≡◌, true, ◌++◌, ◌≤◌, ◌<◌, length, drop};
ghost use Rattle.std.specs.Char.{is_ascii_hexdigit};
ghost use Rattle.std.specs.List.{list_all};
ghost use Rattle.hexadecimal.specs.Hex.{digit as digit_of, are_pairs, pairs, is_hex, bytes_of, bytes_leave};

// The value of a digit in either case.
#[tactic(auto, unfolding(crate::specs::Hex::digit))]
fn digit(b: u8) -> u8
    requires { digit_of b < 16 }
    ensures { result ≡ digit_of b }
{
    match b {
        b'0'..=b'9' => b - b'0',
        b'A'..=b'F' => b - b'A' + 10,
        _ => b - b'a' + 10,
    }
}

fn are_digits(text: &[u8]) -> bool
    ensures { result ≡ list_all is_ascii_hexdigit text.now }
{
    text.iter().all(|b| b.is_ascii_hexdigit())
}

// Whether it is digits, two by two.
fn are_pairs(text: &[u8]) -> bool
    ensures { result ≡ are_pairs text.now }
{
    text.len() % 2 == 0 && are_digits(text)
}

// Whether it is one or more pairs of digits, or the - that stands for no bytes.
#[tactic(auto, unfolding(crate::specs::Hex::is_hex))]
fn is_hex(text: &[u8]) -> bool
    ensures { result ≡ is_hex text.now }
{
    match text {
        [] => false,
        [b] => *b == b'-',
        _ => are_pairs(text),
    }
}

// Writes the bytes of all pairs to the front of the output.
fn put_pairs(text: &[u8], out: &mut [u8])
    requires text_value { is_hex text.now ≡ true }
    requires text_in_bounds { length (pairs text.now) ≤ length out.old }
    ensures { out.new ≡ pairs text.now ++ drop (length (pairs text.now)) out.old }
{
    for k in 0..text.len() / 2 {
        out[k] = 16 * digit(text[2 * k]) + digit(text[2 * k + 1]);
    }
}

// The bytes that a word of hexadecimal digits writes go to the front of the output: how many there are. Nothing changes where it is no such word, and where
// there is no room.
#[tactic(auto, using(crate::proofs::Pairs::half), unfolding(crate::specs::Hex::is_taken, crate::specs::Hex::bytes_of, crate::specs::Hex::bytes_leave))]
pub fn bytes(text: &[u8], out: &mut [u8]) -> Option<usize>
    ensures value { result ≡ bytes_of text.now out.old }
    ensures out_after { out.new ≡ bytes_leave text.now out.old }
{
    let n = text.len() / 2;
    if !is_hex(text) || out.len() < n {
        return None;
    }
    put_pairs(text, out);
    Some(n)
}
