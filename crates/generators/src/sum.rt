// Sums of chosen items, over anything that adds up like bits.
ghost use Rattle.std.specs.Prelude.{◌≡◌, length, bit_xor};
ghost use Rattle.std.proofs.lemmas.Nat.{xor_comm};
ghost use Rattle.std.specs.Int.Bits.{xor_assoc, xor_self, xor_zero_l};
ghost use Rattle.rings.specs.Questions.{Answers};
ghost use Rattle.generators.specs.Chosen.{chosen, items_refusal};

use rings::Refusal;

const MAX_ITEMS: usize = 32;

// A sum that is commutative and associative, and in which everything is its own opposite.
pub trait Summand: Copy {
    ghost zero: { Self };

    ghost plus: { Self → Self → Self };

    fn zero() -> Self
        ensures { result ≡ zero };

    fn plus(self, other: Self) -> Self
        ensures { result ≡ plus self other };

    // The laws, which each `impl` proves.
    ghost unit: { (x : Self) → plus zero x ≡ x };

    ghost commutes: { (x y : Self) → plus x y ≡ plus y x };

    ghost associates: { (x y z : Self) → plus (plus x y) z ≡ plus x (plus y z) };

    ghost cancels: { (x : Self) → plus x x ≡ zero };
}

// State words add up cell by cell.
impl Summand for u32 {
    ghost zero = { 0 };

    ghost plus = { bit_xor };

    ghost unit = { xor_zero_l };

    ghost commutes = { xor_comm };

    ghost associates = { xor_assoc };

    ghost cancels = { xor_self };

    fn zero() -> u32 {
        0
    }

    fn plus(self, other: u32) -> u32 {
        self ^ other
    }
}

// The sum of the items at the places, from 0, whose bit is 1 in the word.
pub fn chosen_sum<T: Summand>(items: &[T], word: u32) -> Result<T, Refusal>
    ensures { Answers result (items_refusal (length items.now)) (λ s. s ≡ chosen T.zero T.plus items.now word) }
{
    if items.len() > MAX_ITEMS {
        return Err(Refusal::TooManyItems);
    }
    let mut sum = T::zero();
    for (place, item) in items.iter().enumerate() {
        if word >> place & 1 == 1 {
            sum = sum.plus(*item);
        }
    }
    Ok(sum)
}
