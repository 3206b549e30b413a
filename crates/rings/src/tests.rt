use crate::{Refusal, Ring, polynomial_of};
use std::test::Fail;

#[test]
fn published_vectors(rt: HostRuntime) -> Result<(), Fail> {
    assert_eq!(rt; polynomial_of(6, 6)?, 67);
    assert_eq!(rt; polynomial_of(6, 24)?, 67);
    assert_eq!(rt; polynomial_of(7, 77)?, 131);
    assert_eq!(rt; polynomial_of(7, 89)?, 131);
    assert_eq!(rt; polynomial_of(31, 2108737247)?, 0x8000_0009);
    assert_eq!(rt; polynomial_of(31, 2108786399)?, 0x8000_0009);
    Ok(())
}

#[test]
fn questions_in_their_order(rt: HostRuntime) {
    assert_eq!(rt; polynomial_of(0, 0), Err(Refusal::CellCount));
    assert_eq!(rt; polynomial_of(32, u32::MAX), Err(Refusal::CellCount));
    assert_eq!(rt; polynomial_of(6, 64), Err(Refusal::VectorTooLarge));
    assert_eq!(rt; Refusal::CellCount.number(), 15);
    assert_eq!(rt; Refusal::VectorTooLarge.number(), 16);
}

#[test]
fn a_ring_keeps_its_polynomial(rt: HostRuntime) -> Result<(), Fail> {
    let ring = Ring::new(5, 30)?;
    assert_eq!(rt; ring.polynomial(), 37);
    assert_eq!(rt; ring.vector().cells(), 5);
    assert_eq!(rt; ring.vector().rules(), 30);
    assert_eq!(rt; ring.state(), 0);
    Ok(())
}

#[test]
fn a_refusal_is_printed_by_its_number(rt: HostRuntime) -> Result<(), Fail> {
    let heap = rt.alloc();
    for (refusal, shown, debugged) in [
        (Refusal::CellCount, "refused 15", "refused 15"),
        (Refusal::NoShift(2), "refused 18 at cell 2", "refused 18"),
    ] {
        let text = format!(in heap; "{refusal}")?;
        assert_eq!(rt; text.as_str(), shown);
        let text = format!(in heap; "{refusal:?}")?;
        assert_eq!(rt; text.as_str(), debugged);
    }
    Ok(())
}
