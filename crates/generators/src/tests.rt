use crate::{Doubler, Generator, Register, Tap, chosen_sum, jump};
use rings::{Refusal, Ring};
use std::process::Abort;
use std::test::Fail;

fn ring() -> Result<Ring, Refusal> {
    let mut ring = Ring::new(5, 30)?;
    ring.load(1)?;
    Ok(ring)
}

fn register() -> Result<Register, Refusal> {
    let mut register = Register::new(37)?;
    register.load(1)?;
    Ok(register)
}

fn walk<G: Generator>(rt: &impl Abort, g: &mut G, states: &[u32]) {
    for state in states {
        assert_eq!(rt; g.state(), *state);
        g.step();
    }
}

#[test]
fn steps(rt: HostRuntime) -> Result<(), Fail> {
    walk(&rt, &mut ring()?, &[1, 2, 7, 11, 25, 6]);
    walk(&rt, &mut register()?, &[1, 2, 4, 9, 18]);
    walk(&rt, &mut Doubler::over(ring()?), &[1, 7, 25]);
    Ok(())
}

#[test]
fn words_that_are_no_states(rt: HostRuntime) -> Result<(), Fail> {
    let mut register = register()?;
    assert_eq!(rt; register.load(32), Err(Refusal::WordTooLarge));
    assert_eq!(rt; register.state(), 1);
    assert!(rt; Register::new(1).is_err());
    Ok(())
}

#[test]
fn a_tap_shows_differences(rt: HostRuntime) -> Result<(), Fail> {
    let mut tap = Tap::over(ring()?);
    tap.load(11)?;
    assert_eq!(rt; tap.shown(), 14);
    Ok(())
}

#[test]
fn chosen_words(rt: HostRuntime) {
    assert_eq!(rt; chosen_sum(&[1u32, 2, 4], 0b101), Ok(5));
    assert_eq!(rt;
        chosen_sum(&[1u32, 2, 4], 0b1000),
        Ok(0),
        "no item at place 3"
    );
    assert_eq!(rt; chosen_sum(&[0u32; 33], 0), Err(Refusal::TooManyItems));
}

#[test]
fn jumps(rt: HostRuntime) -> Result<(), Fail> {
    let mut far = ring()?;
    jump(&mut far, 1 << 62);
    assert_eq!(rt; far.state(), 25);
    let mut near = Tap::over(Doubler::over(register()?));
    let mut walked = Tap::over(Doubler::over(register()?));
    jump(&mut near, 1000);
    for _ in 0..1000 {
        walked.step();
    }
    assert_eq!(rt; near.state(), walked.state());
    assert_eq!(rt; near.shown(), walked.shown());
    Ok(())
}
