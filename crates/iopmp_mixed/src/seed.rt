// The seed that the first word is.
ghost use Rattle.std.specs.Prelude.{◌≡◌, ◌≤◌, IfSome, length, map};
ghost use Rattle.std.specs.String.{string_bytes};
ghost use Rattle.iopmp_mixed.specs.Seeds.{seed_of, first_seed};

use script_reader::decimal_number;

/// The most digits of a seed.
const MOST_DIGITS: usize = 20;

/// The seed that a word of 1 to 20 decimal digits writes, where 64 bits hold it.
#[tactic(auto, unfolding(crate::specs::Seeds::seed_of))]
fn seed(word: &str) -> Option<u64>
    ensures { result ≡ seed_of word.now }
{
    decimal_number(MOST_DIGITS, u64::MAX, word.as_bytes())
}

/// The seed that the first word is. There is then a first word.
pub fn seed_in(words: &[String]) -> Option<u64>
    ensures seed { result ≡ first_seed (map string_bytes words.now) }
    ensures some { IfSome result (λ _. 1 ≤ length words.now) }
{
    match words {
        [word, ..] => seed(word.as_str()),
        _ => None,
    }
}
