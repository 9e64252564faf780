//! What the words ask for.
ghost use Rattle.std.specs.Prelude.{◌≡◌, IfSome};
ghost use Rattle.join_command.specs.Commands.{command_of, generation, IsPossible};

use join_generator::number_of_word;

/// What the program is asked for.
#[derive(Clone, Copy, PartialEq, Eq, Debug)]
pub enum Command {
    /// To answer the request that it reads.
    Answer,
    /// To answer the generated input of so many build rows.
    Generate(u32),
}

/// The command of two words: `gen` and a number.
fn generation(name: &str, number: &str) -> Option<Command>
    ensures command { result ≡ generation name.now number.now }
    ensures possible { IfSome result IsPossible }
{
    if name != "gen" {
        return None;
    }
    match number_of_word(number) {
        Some(n) => Some(Command::Generate(n)),
        None => None,
    }
}

/// The command that words give: none at all, or `gen` and a number from 1 to 100,000.
#[tactic(auto, using(crate::proofs::Worded::other_words))]
pub fn command_of(words: &[String]) -> Option<Command>
    ensures command { result ≡ command_of words.now }
    ensures possible { IfSome result IsPossible }
{
    match words {
        [] => Some(Command::Answer),
        [name, number] => generation(name.as_str(), number.as_str()),
        _ => None,
    }
}
