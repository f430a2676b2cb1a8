// The number of a generated script.
ghost use Rattle.std.specs.Prelude.{◌≡◌};
ghost use Rattle.script_generator.specs.ScriptNumbers.{script_number};

use script_reader::decimal_number;

/// The most digits of a number.
const MOST_DIGITS: usize = 10;

/// The number that a word of 1 to 10 decimal digits writes, where 32 bits hold it.
#[tactic(auto, unfolding(crate::specs::ScriptNumbers::script_number))]
pub fn script_number(word: &str) -> Option<u32>
    ensures { result ≡ script_number word.now }
{
    let number = decimal_number(MOST_DIGITS, u64::from(u32::MAX), word.as_bytes())?;
    Some(number as u32)
}
