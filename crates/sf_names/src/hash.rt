//! The hash of the names of a text, and how a table of names grows.

ghost use Rattle.std.specs.Prelude.{◌≤◌};

use std::hash::{BuildHasher, DefaultHasher, Hasher};

/// The hash of the names of one text: each is hashed as if it stood behind the whole text, so that whoever
/// puts names with one hash into a text changes the hash of them all by it.
#[derive(Clone, Copy, Drop)]
pub struct TextHash {
    state: DefaultHasher,
}

impl TextHash {
    /// For the names of this text.
    pub fn new(text: &[u8]) -> TextHash {
        let mut hash = TextHash {
            state: DefaultHasher::new(),
        };
        hash.add(text);
        hash
    }

    /// The same with these bytes behind the text.
    pub fn add(&mut self, bytes: &[u8]) {
        self.state.write(bytes);
    }
}

impl BuildHasher for TextHash {
    type Hasher = DefaultHasher;

    ghost build_hasher = { λ h. h.state };

    fn build_hasher(&self) -> DefaultHasher {
        self.state
    }
}

/// For how many more names there is to be room, when there are so many and there is room for no more. A table
/// grows to the most that is expected, or to an eighth of it, or to an eighth of that, so that few names are
/// moved, and so that twice the text takes the same steps at twice the names.
pub fn step(most: usize, count: usize) -> usize
    ensures { result ≤ most }
{
    let mut room = most;
    while room / 8 > count {
        room /= 8;
    }
    room.saturating_sub(count)
}
