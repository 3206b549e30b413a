// Runs of calls on anything that performs them one by one, and the law that their answers obey.
#![tactic(auto)]

ghost use Rattle.std.specs.Prelude.{◌≡◌, List, [], ◌∷◌, IfOk};
ghost use Rattle.runs.specs.Runs.{Law, History, Obeys};

use std::alloc::{AllocError, Global};

// Answers calls of the kind C by answers of the kind A.
pub trait Performer<C, A> {
    // Which answers are right after which history.
    ghost law: { Self → Law C A };

    // What ties the value to the history that led to it.
    ghost tied: { Self → History C A → Type 0 };

    fn perform(&mut self, call: C) -> A
        ensures same { (h : History C A) (c : C) (a : A) → law self.new h c a → law self.old h c a }
        ensures right { (h : History C A) → tied self.old h → law self.old h call result × tied self.new ((call, result) ∷ h) };
}

// Performs the calls in their order. Where the history so far was empty, the answers obey the law.
pub fn perform_all<C: Copy, A: Drop, P: Performer<C, A>>(
    heap: Global,
    performer: &mut P,
    calls: &[C],
) -> Result<Vec<A>, AllocError>
    ensures { IfOk result (λ answers. P.tied performer.old [] → Obeys (P.law performer.old) calls.now answers.items) }
{
    let mut answers = Vec::with_capacity(heap, calls.len())?;
    for call in calls {
        let answer = performer.perform(*call);
        answers.push(answer)?;
    }
    Ok(answers)
}
