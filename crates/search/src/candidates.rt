// The candidates for the vectors of a polynomial, and the smallest one that is wanted.
ghost use Rattle.std.specs.Prelude.{◌≡◌, ◌≤◌, true, false, Some, None};
ghost use Rattle.search.specs.Lists.{Of, Wanted, Candidate, Least};
ghost use Rattle.search.specs.Spans.{word_at, Complete};
ghost use Rattle.search.specs.Undoing.{Undoes};

use crate::pins::{Pins, obeyed};
use crate::span::Span;
use crate::system::System;
use gf2::Modulus;
use rings::polynomial_of;

// A span in which each vector of the polynomial has the polynomial of all its cells but the last.
#[derive(Clone, Copy)]
pub struct Candidates {
    modulus: Modulus,
    span: Span,
    ghost complete: { Complete modulus.polynomial modulus.degree span },
}

impl Candidates {
    pub(crate) fn of(modulus: Modulus) -> Candidates
        ensures { result.modulus ≡ modulus }
    {
        Candidates {
            modulus,
            span: solutions(modulus),
        }
    }

    pub(crate) fn cells(&self) -> u32
        ensures { result ≡ self.now.modulus.degree }
    {
        self.modulus.degree()
    }

    // The smallest vector of the polynomial that obeys the pins and is not below from.
    pub(crate) fn least(&self, pins: &Pins, from: u32) -> Option<u32>
        ensures { Least (Wanted self.now.modulus.degree self.now.modulus.polynomial pins.now from) result }
    {
        (0..self.span.words())
            .filter_map(|t| self.wanted(pins, from, t))
            .min()
    }

    // The vector at t, if it is wanted.
    fn wanted(&self, pins: &Pins, from: u32, t: u32) -> Option<u32>
        ensures { Candidate (Wanted self.now.modulus.degree self.now.modulus.polynomial pins.now from) self.now.modulus.degree (word_at self.now.span t) result }
    {
        self.vector(t)
            .filter(|vector| *vector >= from && obeyed(pins, *vector))
    }

    // The vector that the word at t leads to, if the recurrence gives the polynomial for it.
    fn vector(&self, t: u32) -> Option<u32>
        ensures { Candidate (Of self.now.modulus.degree self.now.modulus.polynomial) self.now.modulus.degree (word_at self.now.span t) result }
    {
        let vector = undo(self.modulus, self.span.word(t));
        has_polynomial(self.modulus, vector).then_some(vector)
    }
}

// The words y that satisfy the identity with the polynomial: no other belongs to a vector of it.
fn solutions(modulus: Modulus) -> Span
    ensures { Complete modulus.polynomial modulus.degree result }
{
    match System::of(modulus).solve() {
        Some(expressions) => Span::of(&expressions, modulus),
        None => Span::empty(),
    }
}

// Whether the recurrence gives the polynomial for the vector.
fn has_polynomial(modulus: Modulus, vector: u32) -> bool
    ensures { elim result [ true ↦ Of modulus.degree modulus.polynomial vector | false ↦ Of modulus.degree modulus.polynomial vector → ⊥ ] }
{
    polynomial_of(modulus.degree(), vector).is_ok_and(|found| found == modulus.polynomial())
}

// The rules of a vector from its last two polynomials, that of the modulus and y, the last cell first: the division of the
// one by the other leaves the polynomial before them, and its quotient is x plus the rule.
fn undo(modulus: Modulus, y: u32) -> u32
    ensures { Undoes modulus.degree modulus.polynomial y result }
{
    let mut vector = 0;
    let mut above = modulus.polynomial();
    let mut below = y;
    for k in (0..modulus.degree()).rev() {
        let rest = above ^ below << 1;
        let rule = rest >> k & 1;
        let own = if rule == 1 { below } else { 0 };
        vector = vector << 1 | rule;
        above = below;
        below = rest ^ own;
    }
    vector
}
