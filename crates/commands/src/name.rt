// The names of the commands.
ghost use Rattle.std.specs.Prelude.{◌≡◌};
ghost use Rattle.commands.specs.Commands.{name_of, usage_of, expected_of};

// The commands by their names.
#[derive(Clone, Copy)]
pub enum Name {
    Multiply,
    Pattern,
    Register,
}

impl Name {
    // The command that has this name, if one has. `TryFrom` would need an error type for what `None` says.
    pub fn of(word: &[u8]) -> Option<Name>
        ensures { result ≡ name_of word.now }
    {
        match word {
            b"multiply" => Some(Name::Multiply),
            b"pattern" => Some(Name::Pattern),
            b"register" => Some(Name::Register),
            _ => None,
        }
    }

    // What a line with this name should look like: no printing of the name, so no `Display`.
    pub fn usage(&self) -> &'static str
        ensures { result.now ≡ usage_of self.now }
    {
        match self {
            Name::Multiply => "multiply CELLS VECTOR",
            Name::Pattern => "pattern CELLS VECTOR SEED CLOCK [doubler|tap]...",
            Name::Register => "register POLYNOMIAL SEED CLOCK [doubler|tap]...",
        }
    }
}

// What a line should look like: the form of the command that it names, or else any command.
pub fn expected(name: Option<Name>) -> &'static str
    ensures { result.now ≡ expected_of name }
{
    match name {
        Some(name) => name.usage(),
        None => "a command: multiply, pattern, register",
    }
}
