use crate::{Modulus, degree, derivative, product};
use std::test::Fail;

fn modulus(polynomial: u32) -> Result<Modulus, Fail> {
    Modulus::new(polynomial).ok_or_else(|| Fail::new("a polynomial below 2"))
}

#[test]
fn products_and_degrees(rt: HostRuntime) {
    assert_eq!(rt; product(3, 3), 5, "(x + 1)^2 = x^2 + 1");
    assert_eq!(rt;
        product(u32::MAX, u32::MAX),
        0x5555_5555_5555_5555,
        "a square only spreads the exponents"
    );
    assert_eq!(rt; degree(0), None);
    assert_eq!(rt; degree(1), Some(0));
    assert_eq!(rt; degree(u32::MAX), Some(31));
}

#[test]
fn derivatives(rt: HostRuntime) {
    assert_eq!(rt;
        derivative(0b1111),
        0b101,
        "x^3 + x^2 + x + 1 has the derivative x^2 + 1"
    );
    assert_eq!(rt; derivative(u64::MAX), 0x5555_5555_5555_5555);
}

#[test]
fn only_polynomials_from_x_on_are_moduli(rt: HostRuntime) -> Result<(), Fail> {
    assert!(rt; Modulus::new(0).is_none());
    assert!(rt; Modulus::new(1).is_none());
    assert_eq!(rt; modulus(2)?.degree(), 1);
    assert_eq!(rt; modulus(u32::MAX)?.degree(), 31);
    Ok(())
}

#[test]
fn powers_of_x(rt: HostRuntime) -> Result<(), Fail> {
    assert_eq!(rt;
        modulus(37)?.power_of_x(31),
        1,
        "x^5 + x^2 + 1 is primitive"
    );
    assert_eq!(rt;
        modulus(21)?.power_of_x(15),
        8,
        "x^15 leaves x^3 modulo x^4 + x^2 + 1"
    );
    assert_eq!(rt; modulus(21)?.power_of_x(6), 1);
    // x^(2^31) = x modulo a polynomial of degree 31 that is irreducible, so x^(2^62) is x too.
    assert_eq!(rt; modulus(0x8000_0009)?.power_of_x(1 << 62), 2);
    Ok(())
}

#[test]
fn remainders_and_products(rt: HostRuntime) -> Result<(), Fail> {
    let m = modulus(7)?;
    assert_eq!(rt; m.remainder(4), 3, "x^2 = x + 1");
    assert_eq!(rt;
        m.remainder(u64::MAX),
        1,
        "64 ones are 21 times x^2 + x + 1, and the highest power, x^63 = 1"
    );
    assert_eq!(rt; m.product(2, 3), 1);
    assert_eq!(rt; m.product(u32::MAX, 1), m.remainder(0xffff_ffff));
    Ok(())
}
