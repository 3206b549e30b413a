// Numbers and polynomials as words write them.
ghost use Rattle.words.specs.Readings.{number_in, small_in, polynomial_in};

use super::{Polynomial, Reading};
use crate::numbers::number;

// Any number; what lies past a u64 stands as its largest.
impl Reading for u64 {
    ghost read = { number_in };

    fn read(word: &[u8]) -> Option<u64> {
        number(word)
    }
}

// Cells, vectors and seeds are refused from 2^31 on, so what lies past a u32 may stand as its largest.
impl Reading for u32 {
    ghost read = { small_in };

    fn read(word: &[u8]) -> Option<u32> {
        let value = number(word)?;
        Some(u32::try_from(value).unwrap_or(u32::MAX))
    }
}

// A polynomial that is too large for its word fails no question, so it is not read at all.
impl Reading for Polynomial {
    ghost read = { polynomial_in };

    fn read(word: &[u8]) -> Option<Polynomial> {
        let word = u32::try_from(number(word)?).ok()?;
        Some(Polynomial { word })
    }
}
