// Degree and product, and the laws that they keep.
ghost use Rattle.std.specs.Prelude.{◌≡◌, ◌*◌, ◌<◌, Some, None};
ghost use Rattle.gf2.specs.Algebra.{product as times, derivative as slope, Degree};
ghost use Rattle.gf2.specs.Laws.{Ring, Derivation};

// The highest power of x in a; 0 has none.
pub fn degree(a: u32) -> Option<u32>
    ensures { elim result [ None ↦ a ≡ 0 | Some n ↦ Degree a n ] }
{
    a.checked_ilog2()
}

// The whole product, from the highest digit of a down.
pub fn product(a: u32, b: u32) -> u64
    ensures value { result ≡ times a b }
    ensures ring { Ring }
    ensures derivation { Derivation }
{
    let b = u64::from(b);
    let mut r = 0u64;
    for i in (0..32u32).rev() {
        let digit = u64::from(a >> i & 1);
        r = r << 1 ^ b & digit.wrapping_neg();
    }
    r
}

// The coefficients at even powers of x.
const EVEN: u64 = 0x5555_5555_5555_5555;

// The formal derivative: an odd power x^i becomes x^(i−1), and an even one goes.
pub fn derivative(a: u64) -> u64
    ensures { result ≡ slope a }
{
    a >> 1 & EVEN
}

// A digit times b, without a branch. `product` has the same in 64 bits: a trait over both widths would be longer than the line.
pub(crate) fn scaled(digit: u32, b: u32) -> u32
    ensures { digit < 2 → result ≡ digit * b }
{
    b & digit.wrapping_neg()
}
