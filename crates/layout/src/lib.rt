// A container's layout: what kinds there are, and where the entries stand.
#![tactic(auto)]

ghost use Rattle.std.specs.Prelude.{◌≡◌, ◌<◌, ◌≤◌};
ghost use Rattle.layout.specs.Layout.{offset_size, key_entry, key_place, value_place, header_size, offset_at};

// What a container is: an object or an array, with offsets of four bytes or of two.
#[derive(Clone, Copy, Debug, PartialEq, Eq)]
pub struct Kind {
    pub object: bool,
    pub large: bool,
}

impl Kind {
    // The bytes of an offset, a count or a size.
    #[tactic(auto, unfolding(crate::specs::Layout::offset_size))]
    pub fn offset_size(self) -> usize
        ensures value { result ≡ offset_size self }
        ensures upper_bound { result ≤ 4 }
    {
        if self.large { 4 } else { 2 }
    }

    // The bytes of a key entry.
    #[tactic(auto, unfolding(crate::specs::Layout::key_entry))]
    pub fn key_entry(self) -> usize
        ensures value { result ≡ key_entry self }
        ensures upper_bound { result ≤ 6 }
    {
        if self.object {
            self.offset_size() + 2
        } else {
            0
        }
    }

    // Where key entry i stands.
    #[tactic(auto, unfolding(crate::specs::Layout::key_place))]
    pub fn key_place(self, i: u32) -> usize
        ensures value { result ≡ key_place self i }
        ensures upper_bound { result < 68719476736 }
    {
        2 * self.offset_size() + i as usize * self.key_entry()
    }

    // Where value entry i of n stands.
    #[tactic(auto, unfolding(crate::specs::Layout::value_place))]
    pub fn value_place(self, n: u32, i: u32) -> usize
        ensures value { result ≡ value_place self n i }
        ensures upper_bound { result < 68719476736 }
    {
        let w = self.offset_size();
        2 * w + n as usize * self.key_entry() + i as usize * (w + 1)
    }

    // The bytes of a header with n entries.
    #[tactic(auto, unfolding(crate::specs::Layout::header_size))]
    pub fn header_size(self, n: u32) -> usize
        ensures value { result ≡ header_size self n }
        ensures upper_bound { result < 68719476736 }
    {
        self.value_place(n, n)
    }
}

// The offset at a place, up to an end.
#[tactic(auto, unfolding(crate::specs::Layout::offset_at))]
pub fn offset_at(doc: &[u8], k: Kind, at: usize, end: usize) -> u32
    ensures { result ≡ offset_at doc.now k at end }
{
    if k.large {
        raw::u32_at(doc, at, end) as u32
    } else {
        raw::u16_at(doc, at, end) as u32
    }
}
