// Arithmetic modulo a polynomial of degree 1 to 31.
ghost use Rattle.std.specs.Prelude.{◌≡◌, ℕ, ◌*◌, ◌^◌, ◌<◌, ◌≤◌, Some, None};
ghost use Rattle.gf2.specs.Algebra.{times_x, power_of_x, product as times, Degree, Leaves};
ghost use Rattle.gf2.specs.Laws.{Division};

use crate::arithmetic;

// A polynomial of degree 1 to 31, so that no call below has to ask.
#[derive(Clone, Copy)]
pub struct Modulus {
    polynomial: u32,
    degree: u32,
    ghost leading: { Degree polynomial degree },
    ghost low: { 1 ≤ degree },
    ghost high: { degree ≤ 31 },
}

impl Modulus {
    // None for 0 and 1, which have no degree from 1 on.
    pub fn new(polynomial: u32) -> Option<Modulus>
        ensures { elim result [ None ↦ polynomial < 2 | Some m ↦ (2 ≤ polynomial) × (m.polynomial ≡ polynomial) ] }
    {
        match arithmetic::degree(polynomial) {
            Some(degree) if degree >= 1 => Some(Modulus { polynomial, degree }),
            _ => None,
        }
    }

    pub fn polynomial(&self) -> u32
        ensures { result ≡ self.now.polynomial }
    {
        self.polynomial
    }

    pub fn degree(&self) -> u32
        ensures value { result ≡ self.now.degree }
        ensures leading { Degree self.now.polynomial result }
    {
        self.degree
    }

    // What a leaves: itself where it is of lower degree, and else from its highest digit down.
    pub fn remainder(&self, a: u64) -> u32
        ensures value { Leaves a self.now.polynomial result }
        ensures division { Division self.now.polynomial }
    {
        if a >> self.degree == 0 {
            return a as u32;
        }
        let mut r = 0;
        for i in (0..64 - a.leading_zeros()).rev() {
            r = self.times_x(r) ^ (a >> i & 1) as u32;
        }
        r
    }

    // What a·b leaves.
    pub fn product(&self, a: u32, b: u32) -> u32
        ensures { Leaves (times a b) self.now.polynomial result }
    {
        self.multiple(a, self.remainder(u64::from(b)))
    }

    // What x^e leaves: a square for each digit of e, and a step more where it is 1.
    pub fn power_of_x(&self, e: u64) -> u32
        ensures { Leaves (power_of_x e) self.now.polynomial result }
    {
        let mut r = 1;
        for i in (0..64 - e.leading_zeros()).rev() {
            r = self.multiple(r, r);
            if e >> i & 1 == 1 {
                r = self.times_x(r);
            }
        }
        r
    }

    // What x^(2^d) leaves: x squared d times over.
    pub fn frobenius_of_x(&self, d: u32) -> u32
        ensures { Leaves (power_of_x (2 ^ d)) self.now.polynomial result }
    {
        let mut r = self.remainder(2);
        for i in 0..d {
            r = self.multiple(r, r);
        }
        r
    }

    // x times what leaves r.
    fn times_x(&self, r: u32) -> u32
        ensures { (a : ℕ) → Leaves a self.now.polynomial r → Leaves (times_x a) self.now.polynomial result }
    {
        let doubled = r << 1;
        doubled ^ arithmetic::scaled(doubled >> self.degree, self.polynomial)
    }

    // a times what leaves b, from the highest digit of a down.
    fn multiple(&self, a: u32, b: u32) -> u32
        ensures { (c : ℕ) → Leaves c self.now.polynomial b → Leaves (times a c) self.now.polynomial result }
    {
        let mut r = 0;
        for i in (0..32 - a.leading_zeros()).rev() {
            r = self.times_x(r) ^ arithmetic::scaled(a >> i & 1, b);
        }
        r
    }
}
