// Runs of a rig: any list of calls, and what came of each.
ghost use Rattle.std.specs.Prelude.{◌≡◌, ◌∷◌, Some, IfOk};
ghost use Rattle.runs.specs.Runs.{Obeys};
ghost use Rattle.rig.specs.Held.{view};
ghost use Rattle.rig.specs.Runs.{RigLaw, Tied};
ghost use Rattle.rig.specs.Texts.{answer_text};

use crate::Rig;
use generators::Generator;
use rings::Refusal;
use runs::{Performer, perform_all};
use std::alloc::{AllocError, Global};
use std::fmt;

#[derive(Clone, Copy)]
pub enum Call {
    Seed(u32),
    Step,
    Jump(u64),
    Show,
    Clock,
}

#[derive(Clone, Copy, Debug, PartialEq, Eq)]
pub enum Answer {
    // A seed, a step or a jump was accepted.
    Done,
    // The pattern that is shown.
    Pattern(u32),
    Clock(u64),
}

impl fmt::Display for Answer {
    ghost output = { λ a. Some (answer_text a) };

    fn fmt<W: fmt::Write>(&self, f: &mut fmt::Formatter<W>) -> fmt::Result {
        match self {
            Answer::Done => write!(f, "done"),
            Answer::Pattern(pattern) => write!(f, "{pattern}"),
            Answer::Clock(clock) => write!(f, "{clock}"),
        }
    }
}

impl<G: Generator> Performer<Call, Result<Answer, Refusal>> for Rig<G> {
    ghost law = { λ r. RigLaw (G.Generator.meaning r.generator) };

    ghost tied = { λ r h. Tied (view G.Generator.meaning G.Generator.state r) h };

    fn perform(&mut self, call: Call) -> Result<Answer, Refusal> {
        match call {
            Call::Seed(word) => self.seed(word).map(|()| Answer::Done),
            Call::Step => self.step().map(|()| Answer::Done),
            Call::Jump(length) => self.jump(length).map(|()| Answer::Done),
            // By `?`, as `map` takes half as many instructions again here.
            Call::Show => Ok(Answer::Pattern(self.show()?)),
            Call::Clock => Ok(Answer::Clock(self.clock()?)),
        }
    }
}

// Performs the calls on a fresh rig over the generator.
pub fn run<G: Generator + Drop>(
    heap: Global,
    generator: G,
    calls: &[Call],
) -> Result<Vec<Result<Answer, Refusal>>, AllocError>
    ensures { IfOk result (λ answers. Obeys (RigLaw (G.meaning generator)) calls.now answers.items) }
{
    let mut rig = Rig::new(generator);
    perform_all(heap, &mut rig, calls)
}
