// What every generator promises.
ghost use Rattle.std.specs.Prelude.{◌≡◌, ℕ, ◌^◌, ◌<◌, ◌≤◌};
ghost use Rattle.rings.specs.Questions.{Answers, word_refusal};
ghost use Rattle.generators.specs.Generators.{Meaning, Lawful};

use rings::Refusal;

// A state that moves by a linear rule. The rules and the polynomial never change; only the state does. Meaning and state are
// apart, so each call that moves a generator says by `same` that the meaning stays: of one record, every law and clause that asks for
// one of the two would read `(view g).meaning.cells` for `(meaning g).cells`.
pub trait Generator {
    ghost meaning: { Self → Meaning };

    ghost state: { Self → ℕ };

    fn polynomial(&self) -> u32
        ensures { result ≡ (meaning self.now).polynomial };

    fn state(&self) -> u32
        ensures { result ≡ state self.now };

    fn shown(&self) -> u32
        ensures { result ≡ (meaning self.now).shown (state self.now) };

    fn step(&mut self)
        ensures same { meaning self.new ≡ meaning self.old }
        ensures after { state self.new ≡ (meaning self.old).next (state self.old) };

    // Takes the word for the state.
    fn load(&mut self, word: u32) -> Result<(), Refusal>
        ensures same { meaning self.new ≡ meaning self.old }
        ensures after { Answers result (word_refusal (meaning self.old).cells word) (λ _. state self.new ≡ word) }
        ensures kept { 2 ^ (meaning self.old).cells ≤ word → state self.new ≡ state self.old };

    // The laws, which each `impl` proves.
    ghost lawful: { (g : Self) → Lawful (meaning g) };

    ghost below: { (g : Self) → state g < 2 ^ (meaning g).cells };
}
