//! A line, split into its command and the words after it.
ghost use Rattle.std.specs.Prelude.{◌≡◌, ◌∷◌, [], MatchResult};
ghost use Rattle.std.specs.Option.{option_map_or};
ghost use Rattle.aes_kat.specs.Lines.{words_of};
ghost use Rattle.aes_kat.specs.Reply.{request_of};

use crate::command_names::Command;
use crate::faults::Fault;
use crate::split::split_once;

// A command and the words after it. The second is empty if there is none.
#[derive(Clone, Copy)]
pub(crate) struct Request<'a> {
    pub(crate) command: Command,
    pub(crate) first: &'a [u8],
    pub(crate) second: &'a [u8],
}

// The first word, and what follows the space after it.
#[tactic(auto, using(crate::proofs::Lines::words_of_split, crate::proofs::Lines::words_of_one))]
fn first_word(text: &[u8]) -> (&[u8], Option<&[u8]>)
    ensures { words_of text.now ≡ result.0.now
        ∷ option_map_or (λ rest. words_of rest.now) result.1 [] }
{
    match split_once(text, b' ') {
        Some((word, rest)) => (word, Some(rest)),
        None => (text, None),
    }
}

// Parses a line into its command and the words after it.
#[tactic(auto, using(crate::proofs::Lines::words_after_some), unfolding(crate::specs::Reply::request_of))]
pub(crate) fn parse(line: &[u8]) -> Result<Request<'_>, Fault>
    ensures { MatchResult result
        (λ asked. request_of (words_of line.now) ≡
        Ok (record { command = asked.command; first = asked.first.now; second = asked.second.now }))
        (λ fault. request_of (words_of line.now) ≡ Err fault) }
{
    let (name, after_name) = first_word(line);
    let (Some(command), Some(operands)) = (Command::named(name), after_name) else {
        return Err(Fault::Command);
    };
    let (first, after_first) = first_word(operands);
    let Some(last) = after_first else {
        if !command.takes_one() {
            return Err(Fault::Command);
        }
        return Ok(Request {
            command,
            first,
            second: &[],
        });
    };
    let (second, after_second) = first_word(last);
    if after_second.is_some() || !command.takes_two() {
        return Err(Fault::Command);
    }
    Ok(Request {
        command,
        first,
        second,
    })
}
