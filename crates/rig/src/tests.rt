use crate::run::run;
use crate::{Answer, Call, Rig};
use generators::{Doubler, Generator, Register, Tap};
use rings::{Refusal, Ring};
use std::process::Abort;
use std::test::Fail;

#[test]
fn patterns_of_a_ring(rt: HostRuntime) -> Result<(), Fail> {
    let mut rig = Rig::new(Ring::new(5, 30)?);
    assert!(rt; rig.show().is_err());
    rig.seed(1)?;
    for pattern in [1, 2, 7, 11, 25, 6] {
        assert_eq!(rt; rig.show()?, pattern);
        rig.step()?;
    }
    rig.seed(1)?;
    rig.jump(1 << 62)?;
    assert_eq!(rt; rig.show()?, 25);
    assert_eq!(rt; rig.clock()?, 1 << 62);
    assert!(rt; rig.step().is_err());
    Ok(())
}

#[test]
fn runs_answer_each_call(rt: HostRuntime) -> Result<(), Fail> {
    let calls = [
        Call::Show,
        Call::Seed(0),
        Call::Seed(32),
        Call::Seed(1),
        Call::Jump(4),
        Call::Show,
        Call::Clock,
    ];
    let answers = run(rt.alloc(), Ring::new(5, 30)?, &calls)?;
    let expected = [
        Err(Refusal::NotSeeded),
        Err(Refusal::SeedZero),
        Err(Refusal::WordTooLarge),
        Ok(Answer::Done),
        Ok(Answer::Done),
        Ok(Answer::Pattern(25)),
        Ok(Answer::Clock(4)),
    ];
    assert_eq!(rt; answers.as_slice(), &expected[..]);
    Ok(())
}

type Pile = Tap<Doubler<Register>>;

fn pile() -> Result<Pile, Fail> {
    Ok(Tap::over(Doubler::over(Register::new(69643)?)))
}

// The clocks that a random word asks for, and the rig and the plain generator moved by them, one by jumps, one by steps.
fn moved(rt: &impl Abort, rig: &mut Rig<Pile>, plain: &mut Pile, word: u32) -> Result<(), Fail> {
    let length = word >> 16 & 63;
    if length == 1 {
        rig.step()?;
    } else {
        rig.jump(u64::from(length))?;
    }
    for _ in 0..length {
        plain.step();
    }
    assert_eq!(rt; rig.show()?, plain.shown());
    Ok(())
}

#[test]
fn random_runs_agree_with_plain_steps(rt: HostRuntime) -> Result<(), Fail> {
    let mut rig = Rig::new(pile()?);
    let mut plain = pile()?;
    let mut word = 1u32;
    for turn in 0..200u32 {
        word = word.wrapping_mul(1664525).wrapping_add(1013904223);
        if turn % 20 == 0 {
            let seed = word >> 17 | 1;
            rig.seed(seed)?;
            plain.load(seed)?;
        }
        moved(&rt, &mut rig, &mut plain, word)?;
    }
    Ok(())
}

// Who only keeps a rig says nothing of what the generator is.
#[derive(Drop)]
struct Kept<G> {
    rig: Rig<Tap<G>>,
}

fn handed_on<G>(kept: Kept<G>) -> Rig<Tap<G>> {
    kept.rig
}

#[test]
fn a_rig_is_kept_for_any_generator(rt: HostRuntime) -> Result<(), Fail> {
    let rig = Rig::new(Tap::over(Ring::new(5, 30)?));
    let mut rig = handed_on(Kept { rig });
    rig.seed(11)?;
    assert_eq!(rt; rig.show()?, 14);
    Ok(())
}
