// The names of the commands.
ghost use Rattle.std.specs.Prelude.{◌≡◌};
ghost use Rattle.requests.specs.Names.{name_of, usage_of, expected_of};

use commands::Name as PlainName;

// The commands by their names.
#[derive(Clone, Copy)]
pub enum Name {
    // That of a command with no list.
    Plain(PlainName),
    Vectors,
    Run,
}

impl Name {
    // The command that has this name, if one has. `TryFrom` would need an error type for what `None` says.
    pub fn of(word: &[u8]) -> Option<Name>
        ensures { result ≡ name_of word.now }
    {
        match word {
            b"vectors" => Some(Name::Vectors),
            b"run" => Some(Name::Run),
            _ => PlainName::of(word).map(Name::Plain),
        }
    }

    // What a line with this name should look like: no printing of the name, so no `Display`.
    pub fn usage(&self) -> &'static str
        ensures { result.now ≡ usage_of self.now }
    {
        match self {
            Name::Plain(name) => name.usage(),
            Name::Vectors => "vectors POLYNOMIAL [CELL=VALUE]...",
            Name::Run => "run POLYNOMIAL [CALL]...",
        }
    }
}

// What a line should look like: the form of the command that it names, or else any command. In `commands` it is of other names, and
// another text, so that nothing but the match is the same.
pub fn expected(name: Option<Name>) -> &'static str
    ensures { result.now ≡ expected_of name }
{
    match name {
        Some(name) => name.usage(),
        None => "a command: multiply, pattern, register, vectors, run",
    }
}
