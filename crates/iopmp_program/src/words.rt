// Which command the program's words are.
ghost use Rattle.std.specs.Prelude.{◌≡◌, map};
ghost use Rattle.std.specs.String.{string_bytes};
ghost use Rattle.iopmp_program.specs.CommandWords.{one_word, numbered, two_words, command_of};

use command_answers::Subcommand;
use script_generator::script_number;

/// The commands of one word.
fn one_word(word: &str) -> Option<Subcommand>
    ensures { result ≡ one_word word.now }
{
    if word == "run" {
        return Some(Subcommand::Run);
    }
    if word == "compile" {
        return Some(Subcommand::Compile);
    }
    if word == "plan" {
        return Some(Subcommand::Plan);
    }
    if word == "live" {
        return Some(Subcommand::Live);
    }
    if word == "faults" {
        return Some(Subcommand::Faults);
    }
    if word == "audit" {
        return Some(Subcommand::Audit);
    }
    if word == "narrow" {
        return Some(Subcommand::Narrow);
    }
    None
}

/// The commands that take the number of a generated script.
fn numbered(word: &str, number: &str) -> Option<Subcommand>
    ensures { result ≡ numbered word.now number.now }
{
    if word == "gen" {
        return script_number(number).map(|n| Subcommand::Gen(n));
    }
    if word == "soak" {
        return script_number(number).map(|n| Subcommand::Soak(n));
    }
    None
}

/// The commands of two words.
fn two_words(word: &str, next: &str) -> Option<Subcommand>
    ensures { result ≡ two_words word.now next.now }
{
    if word == "narrow" {
        return if next == "live" {
            Some(Subcommand::NarrowLive)
        } else {
            None
        };
    }
    numbered(word, next)
}

/// The command that the words after the program's name are, if they are one.
pub fn command_in(words: &[String]) -> Option<Subcommand>
    ensures { result ≡ command_of (map string_bytes words.now) }
{
    match words {
        [word] => one_word(word.as_str()),
        [word, next] => two_words(word.as_str(), next.as_str()),
        _ => None,
    }
}
