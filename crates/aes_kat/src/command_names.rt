//! The names of the commands, with which lines begin, and how many words may follow each.
ghost use Rattle.std.specs.Prelude.{◌≡◌};
ghost use Rattle.aes_kat.specs.Reply.{command_of, name_of, takes_one, takes_two};

// A command.
#[derive(Clone, Copy, PartialEq, Eq, Debug)]
pub(crate) enum Command {
    Encrypt,
    Decrypt,
    Round,
    InverseRound,
    Mix,
    InverseMix,
    Schedule,
}

// Every command.
const COMMANDS: [Command; 7] = [
    Command::Encrypt,
    Command::Decrypt,
    Command::Round,
    Command::InverseRound,
    Command::Mix,
    Command::InverseMix,
    Command::Schedule,
];

impl Command {
    // The first word of the command's lines.
    fn name(self) -> &'static [u8]
        ensures { result.now ≡ name_of self }
    {
        match self {
            Command::Encrypt => b"enc",
            Command::Decrypt => b"dec",
            Command::Round => b"round",
            Command::InverseRound => b"invround",
            Command::Mix => b"mix",
            Command::InverseMix => b"invmix",
            Command::Schedule => b"sched",
        }
    }

    // The command of this name.
    #[tactic(auto, unfolding(crate::specs::Reply::first_named))]
    pub(crate) fn named(name: &[u8]) -> Option<Command>
        ensures { result ≡ command_of name.now }
    {
        for command in COMMANDS {
            if command.name() == name {
                return Some(command);
            }
        }
        None
    }

    // Whether one word may follow.
    pub(crate) fn takes_one(self) -> bool
        ensures { result ≡ takes_one self }
    {
        !matches!(self, Command::Round | Command::InverseRound)
    }

    // Whether two words may follow.
    pub(crate) fn takes_two(self) -> bool
        ensures { result ≡ takes_two self }
    {
        !matches!(self, Command::Mix | Command::InverseMix | Command::Schedule)
    }
}
