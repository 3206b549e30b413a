// Words that are states.
ghost use Rattle.std.specs.Prelude.{◌≡◌};
ghost use Rattle.rings.specs.Questions.{Answers, word_refusal};

use crate::Refusal;

// The word as a state of so many cells.
pub fn state_of(cells: u32, word: u32) -> Result<u32, Refusal>
    ensures { Answers result (word_refusal cells word) (λ s. s ≡ word) }
{
    // From 32 cells on every word is one.
    if cells >= u32::BITS {
        return Ok(word);
    }
    if word >> cells != 0 {
        return Err(Refusal::WordTooLarge);
    }
    Ok(word)
}
