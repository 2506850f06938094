// How far a text is made of characters of one and two bytes. Whether a byte may stand behind another is told by these two bytes alone, so that
// blocks may overlap, and the compiler tests the sixteen pairs of a block at once.
#![tactic(auto)]

ghost use Rattle.std.specs.Prelude.{◌≡◌, true, ◌+◌, ◌≤◌, ◌<◌, length};
ghost use Rattle.pairs.specs.Pairs.{lead, tail, right, Rights};

// Whether a byte begins a character of two bytes.
#[tactic(auto, unfolding(crate::specs::Pairs::lead))]
fn is_lead(b: u8) -> bool
    ensures { result ≡ lead b }
{
    194 <= b && b <= 223
}

// Whether a byte ends one.
#[tactic(auto, unfolding(crate::specs::Pairs::tail))]
pub fn is_tail(b: u8) -> bool
    ensures { result ≡ tail b }
{
    128 <= b && b <= 191
}

// Whether the byte b may stand behind the byte a. Tests that are compared, not nested, keep the compiler from making branches of them.
#[tactic(auto, using(crate::proofs::Pairs::compared))]
fn is_right(a: u8, b: u8) -> bool
    ensures { result ≡ right a b }
{
    (is_lead(a) == is_tail(b)) & (is_lead(a) == (192 <= a))
}

// Whether each of the next sixteen bytes is right before the one behind it. All are tested: `all` over the pairs, which ends at the first that is wrong,
// keeps the compiler from vectors and takes some 230 instructions where this takes 30.
fn block(s: &[u8], at: usize) -> bool
    requires { at + 16 < length s.now }
    ensures { result ≡ true → Rights s.now at (at + 16) }
{
    let mut all = true;
    for k in at..at + 16 {
        all &= is_right(s[k], s[k + 1]);
    }
    all
}

// Whether most of a block is ASCII, told by three of its bytes: words pass such a text in fewer steps. No answer is wrong.
fn is_plain(s: &[u8], at: usize) -> bool
    requires { at + 16 < length s.now }
{
    s[at + 16] < 128 && s[at + 12] < 128 && s[at + 7] < 128
}

// From a place on, a place up to which each byte is right before the next: the end of the last block of which that is known.
pub fn pairs_end(s: &[u8], at: usize) -> usize
    ensures { Rights s.now at result }
{
    if s.len() < 17 {
        return at;
    }
    let mut j = at;
    // a `for` over the blocks would need the place beside it, which goes on only where a block is right
    while j < s.len() - 1 {
        // the last block would end past the text, and begins earlier
        let k = j.min(s.len() - 17);
        if !block(s, k) {
            return j;
        }
        j = k + 16;
        if is_plain(s, k) {
            return j;
        }
    }
    j
}
