// Names: one length byte, then fifteen bytes, unused ones zero. A name is a struct by value, inside
// heads and entries; what a caller gives is a slice of any length, and becomes a name that is judged.
#![tactic(auto)]

ghost use Rattle.std.specs.Prelude.{◌≡◌, true, false, MatchOption};
ghost use Rattle.names.specs.Names.{name_at, name_bytes, no_name, name_from, clean, is_text, is_name, length_name_bytes, name_chunk};

use codec::Stored;

#[derive(Clone, Copy, PartialEq, Eq)]
pub struct Name {
    pub len: u8,
    pub bytes: [u8; 15],
}

// Whether no byte of s is 00 or 2F.
fn is_clean(s: &[u8]) -> bool
    ensures { result ≡ clean s.now }
{
    s.iter().all(|b| *b != 0 && *b != b'/')
}

// Whether s may be the text of a name.
#[tactic(auto, unfolding(crate::specs::Names::is_text))]
fn is_text(s: &[u8]) -> bool
    ensures { result ≡ is_text s.now }
{
    match s.len() {
        1 | 2 => is_clean(s) && !codec::all_are(s, b'.'),
        3..=15 => is_clean(s),
        _ => false,
    }
}

// The name whose text is s, which `is_name` then judges; what is too long becomes no name.
impl From<&[u8]> for Name {
    ghost from_gives = { λ s n. n ≡ name_from s.now };

    #[tactic(auto, using(crate::specs::Names::from_short, crate::specs::Names::from_long))]
    fn from(s: &[u8]) -> Self {
        if 15 < s.len() {
            return Name::none();
        }
        let mut bytes = [0u8; 15];
        codec::replace(&mut bytes, 0, s);
        Name {
            len: s.len() as u8,
            bytes,
        }
    }
}

// The bytes of a name in a record: the length and the fifteen.
impl Stored for Name {
    const SIZE: usize = 16;

    ghost SIZE = { 16 };

    ghost at = { name_at };

    ghost bytes = { name_bytes };

    ghost sized = { length_name_bytes };

    ghost within = { name_chunk };

    fn read(t: &[u8], o: usize) -> Self {
        Name {
            len: t[o],
            bytes: codec::get_bytes(t, o + 1),
        }
    }

    #[tactic(auto, using(crate::specs::Names::name_put))]
    fn write(self, t: &mut [u8], o: usize) {
        self.len.write(t, o);
        codec::put_bytes(t, o + 1, self.bytes);
    }
}

impl Name {
    // No name: sixteen zeros, as the root has them.
    pub fn none() -> Self
        ensures { result ≡ no_name }
    {
        Name {
            len: 0,
            bytes: [0; 15],
        }
    }

    // Whether this is a name.
    #[tactic(auto, unfolding(crate::specs::Names::is_name))]
    pub fn is_name(self) -> bool
        ensures { result ≡ is_name self }
    {
        let Some((text, unused)) = self.bytes.split_at_checked(usize::from(self.len)) else {
            return false;
        };
        is_text(text) && codec::all_are(unused, 0)
    }

    // The name whose text is s, if a name may have that text.
    pub fn parse(s: &[u8]) -> Option<Name>
        ensures { MatchOption result (is_name (name_from s.now) ≡ false)
            (λ n. (n ≡ name_from s.now) × (is_name n ≡ true)) }
    {
        let name = Name::from(s);
        if !name.is_name() {
            return None;
        }
        Some(name)
    }
}
