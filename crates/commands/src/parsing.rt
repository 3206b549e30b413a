// From a line to the command that it asks for.
ghost use Rattle.std.specs.Prelude.{◌≡◌};
ghost use Rattle.words.specs.Words.{words, left};
ghost use Rattle.commands.specs.Commands.{understood, read_as, multiply_of, pattern_of, register_of, moment_of, layers_of, more_layers};

use crate::{Command, Layers, Moment, Name};
use words::{Polynomial, Words};

impl Command {
    // The command that a line asks for, or else the one whose form it misses, if it names one.
    pub fn parse(line: &[u8]) -> Result<Command, Option<Name>>
        ensures { result ≡ understood (words line.now) }
    {
        let mut rest = Words::new(line);
        let name = rest.next().and_then(Name::of).ok_or(None)?;
        name.command(rest).ok_or(Some(name))
    }
}

impl Name {
    // The command of this name that the words after it ask for, if they have its form.
    pub fn command(self, rest: Words) -> Option<Command>
        ensures { result ≡ read_as self (left rest.entry) }
    {
        match self {
            Name::Multiply => multiply(rest),
            Name::Pattern => pattern(rest),
            Name::Register => register(rest),
        }
    }
}

fn multiply(mut rest: Words) -> Option<Command>
    ensures { result ≡ multiply_of (left rest.entry) }
{
    let cells = rest.value()?;
    let vector = rest.value()?;
    if rest.next().is_some() {
        return None;
    }
    Some(Command::Multiply { cells, vector })
}

fn pattern(mut rest: Words) -> Option<Command>
    ensures { result ≡ pattern_of (left rest.entry) }
{
    let cells = rest.value()?;
    let vector = rest.value()?;
    let moment = moment(rest)?;
    Some(Command::Pattern {
        cells,
        vector,
        moment,
    })
}

fn register(mut rest: Words) -> Option<Command>
    ensures { result ≡ register_of (left rest.entry) }
{
    let Polynomial { word: polynomial } = rest.value()?;
    let moment = moment(rest)?;
    Some(Command::Register { polynomial, moment })
}

// A seed, a clock, and layers.
fn moment(mut rest: Words) -> Option<Moment>
    ensures { result ≡ moment_of (left rest.entry) }
{
    let seed = rest.value()?;
    let clock = rest.value()?;
    let layers = all_layers(rest)?;
    Some(Moment {
        seed,
        clock,
        layers,
    })
}

// All words that are left name layers.
fn all_layers(rest: Words) -> Option<Layers>
    ensures { result ≡ layers_of (left rest.entry) }
{
    let mut found = Layers::default();
    for word in rest {
        found = found.with(word)?;
    }
    Some(found)
}

impl Layers {
    // One layer more, if the word names one.
    fn with(self, word: &[u8]) -> Option<Layers>
        ensures { result ≡ more_layers self word.now }
    {
        match word {
            b"doubler" => Some(Layers {
                doublers: self.doublers.saturating_add(1),
                ..self
            }),
            b"tap" => Some(Layers {
                taps: self.taps.saturating_add(1),
                ..self
            }),
            _ => None,
        }
    }
}
