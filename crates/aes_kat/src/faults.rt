//! Why a line has no answer.
ghost use Rattle.std.specs.Prelude.{◌≡◌};
ghost use Rattle.aes_kat.specs.Reply.{message_of};

// Why a line has no answer.
#[derive(Clone, Copy, PartialEq, Eq, Debug)]
pub(crate) enum Fault {
    // The first word is not a command, or the command takes another number of words.
    Command,
    // A word after the first is not pairs of hexadecimal digits.
    Hex,
    // The key of a cipher or a schedule has another size.
    Key,
    // A block, or the key of a single round, has another size.
    Block,
}

impl Fault {
    // The line that reports the fault.
    pub(crate) fn message(self) -> &'static [u8]
        ensures { result.now ≡ message_of self }
    {
        match self {
            Fault::Command => b"error command",
            Fault::Hex => b"error hex",
            Fault::Key => b"error key",
            Fault::Block => b"error block",
        }
    }
}
