// The replies to a history's words, from those that each caller kept.
ghost use Rattle.std.specs.Prelude.{◌≡◌, ◌==◌, ◌<◌, ◌≤◌, length, slice_get, IfOk, IfSome};
ghost use Rattle.event_words.specs.Runs.{caller_of_word};
ghost use Rattle.script_player.specs.MergedReplies.{list_of, IsMerged, AreRepliesTo};

use event_words::Reply;
use std::alloc::{AllocError, Global};

/// The most callers of a log.
const CALLERS: usize = 32;

/// The number of the caller whose event a word is, its bits 60:56.
#[tactic(auto, unfolding(event_words::specs::Runs::caller_of_word))]
fn caller_of_word(word: u64) -> usize
    ensures caller { result ≡ caller_of_word word }
    ensures small { result < 32 }
{
    (word / (1 << 56) % 32) as usize
}

/// The reply at this place of a caller's list, where there is one.
fn kept_at(kept: &[Option<Vec<Reply>>], caller: usize, place: usize) -> Option<Reply>
    ensures { result ≡ slice_get (list_of kept.now caller) place }
{
    match kept.get(caller) {
        Some(Some(replies)) => replies.get(place).copied(),
        _ => None,
    }
}

/// The replies to words, each the next that the caller of its word kept; none where a caller kept too few.
fn merged(
    alloc: Global,
    kept: &[Option<Vec<Reply>>],
    words: &[u64],
) -> Result<Option<Vec<Reply>>, AllocError>
    ensures { IfOk result (λ found. IfSome found (λ replies.
        IsMerged kept.now words.now replies.items)) }
{
    let mut next = [0usize; CALLERS];
    let mut replies = Vec::with_capacity(alloc, words.len())?;
    for word in words {
        let caller = caller_of_word(*word);
        let Some(reply) = kept_at(kept, caller, next[caller]) else {
            return Ok(None);
        };
        next[caller] += 1;
        replies.push_reserved(reply);
    }
    Ok(Some(replies))
}

/// Whether the first caller kept so many replies.
fn has_all(kept: &[Option<Vec<Reply>>], count: usize) -> bool
    ensures { result ≡ (length (list_of kept.now 0) == count) }
{
    match kept.first() {
        Some(Some(replies)) => replies.len() == count,
        _ => count == 0,
    }
}

/// The list of the first caller.
fn first_list(kept: Vec<Option<Vec<Reply>>>) -> Option<Vec<Reply>>
    ensures { IfSome result (λ replies. replies.items ≡ list_of kept.items 0) }
{
    match kept.into_iter().next() {
        Some(Some(replies)) => Some(replies),
        _ => None,
    }
}

/// The replies to words, by those that their callers kept: the list of the first caller where it has one for
/// each word, else all lists merged; none where a caller kept too few.
pub fn replies_to_all(
    alloc: Global,
    kept: Vec<Option<Vec<Reply>>>,
    words: &[u64],
) -> Result<Option<Vec<Reply>>, AllocError>
    ensures { IfOk result (λ found. IfSome found (λ replies.
        AreRepliesTo kept.items words.now replies.items)) }
{
    if has_all(&kept, words.len()) {
        return Ok(first_list(kept));
    }
    merged(alloc, &kept, words)
}
