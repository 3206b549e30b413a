// Values that words write.
ghost use Rattle.std.specs.Prelude.{◌≡◌, ℕ, List, Option};

pub mod readings;

// What a word can write. Words are bytes, which `FromStr` does not take, and `TryFrom` for
// numbers can't be given here, since the trait and the types are both the library's.
pub trait Reading: Sized {
    // The value that a word writes, if it writes one.
    ghost read: { List ℕ → Option Self };

    fn read(word: &[u8]) -> Option<Self>
        ensures { result ≡ read word.now };
}

// A polynomial, bit by bit.
#[derive(Clone, Copy)]
pub struct Polynomial {
    pub word: u32,
}
