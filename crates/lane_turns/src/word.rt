// The turns in one word, and the words of the generator.
ghost use Rattle.std.specs.Prelude.{◌≡◌, ◌<◌, ◌^◌, None, Some};
ghost use Rattle.lane_turns.specs.Draws.{word_of};
ghost use Rattle.lane_turns.specs.Words.{turns_in, holder_in, holder_code};

use crate::lanes::LaneSet;
use crate::turns::Turns;
use rand_core::SeedableRng;
use rand_core::utils::NextWord;
use rand_pcg::Pcg32;

/// The word that draws the turn with this number: as many words on in the generator of the seed.
#[tactic(auto, unfolding(crate::specs::Draws::word_of))]
pub fn word_of(seed: u64, number: u32) -> u32
    ensures { result ≡ word_of seed number }
{
    let mut generator = Pcg32::seed_from_u64(seed);
    generator.advance(u64::from(number));
    generator.next_word()
}

fn holder_code(holder: Option<u8>) -> u64
    ensures { result ≡ holder_code holder }
{
    match holder {
        Some(lane) => u64::from(lane),
        None => 0,
    }
}

fn holder_in(code: u64) -> Option<u8>
    requires { code < 32 }
    ensures { result ≡ holder_in code }
{
    if code == 0 { None } else { Some(code as u8) }
}

/// The turns in one word.
pub fn pack(turns: Turns) -> u64
    ensures { turns_in result ≡ turns }
{
    let gone = u64::from(turns.gone);
    let holder = holder_code(turns.holder);
    let given = u64::from(turns.given);
    u64::from(turns.lanes.bits) * 4294967296 + given * 64 + holder * 2 + gone
}

/// The turns that a word stands for.
pub fn unpack(word: u64) -> Turns
    ensures { result ≡ turns_in word }
{
    Turns {
        lanes: LaneSet {
            bits: (word / 4294967296) as u32,
        },
        given: (word / 64 % 67108864) as u32,
        holder: holder_in(word / 2 % 32),
        gone: word % 2 == 1,
    }
}
