// Runs of a search: any list of calls, and what came of each.
ghost use Rattle.std.specs.Prelude.{◌≡◌, Some};
ghost use Rattle.search.specs.Views.{view};
ghost use Rattle.service.specs.Searches.{SearchLaw, view_after};
ghost use Rattle.service.specs.Texts.{answer_text};

use rings::Refusal;
use runs::Performer;
use search::Search;
use std::fmt;

#[derive(Clone, Copy)]
pub enum Call {
    // Any two numbers: whether the first is a cell and the second 0 or 1 is asked by the search.
    Pin { cell: u32, value: u32 },
    Unpin { cell: u32 },
    Count,
    Next,
    Rewind,
}

#[derive(Clone, Copy)]
pub enum Answer {
    // A pin was set or removed, or the search rewound.
    Done,
    Count(u32),
    Vector(u32),
}

impl fmt::Display for Answer {
    ghost output = { λ a. Some (answer_text a) };

    fn fmt<W: fmt::Write>(&self, f: &mut fmt::Formatter<W>) -> fmt::Result {
        match self {
            Answer::Done => write!(f, "done"),
            Answer::Count(count) => write!(f, "{count}"),
            Answer::Vector(vector) => write!(f, "{vector}"),
        }
    }
}

impl Performer<Call, Result<Answer, Refusal>> for Search {
    ghost law = { λ s. SearchLaw (view s).polynomial (view s).cells };

    ghost tied = { λ s h. view s ≡ view_after (view s).polynomial (view s).cells h };

    fn perform(&mut self, call: Call) -> Result<Answer, Refusal> {
        match call {
            Call::Pin { cell, value } => self.pin(cell, value).map(|()| Answer::Done),
            Call::Unpin { cell } => self.unpin(cell).map(|()| Answer::Done),
            Call::Count => Ok(Answer::Count(self.count())),
            Call::Next => self.next().map(Answer::Vector),
            Call::Rewind => {
                self.rewind();
                Ok(Answer::Done)
            }
        }
    }
}
