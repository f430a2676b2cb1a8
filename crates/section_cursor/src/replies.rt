// What a record asks of a reply.
ghost use Rattle.std.specs.Prelude.{◌≡◌};
ghost use Rattle.event_words.specs.Events.{same_event};
ghost use Rattle.event_words.specs.Records.{is_taken, is_aimed, is_verdict, is_held, hits, next_requester};

use event_words::{Event, Reply, Verdict};

#[inline]
pub(crate) fn is_taken(reply: &Reply) -> bool
    ensures { result ≡ is_taken reply.now }
{
    match reply {
        Reply::Passed | Reply::Queued => true,
        _ => false,
    }
}

#[inline]
pub(crate) fn is_aimed(reply: &Reply) -> bool
    ensures { result ≡ is_aimed reply.now }
{
    match reply {
        Reply::Aimed => true,
        _ => false,
    }
}

#[inline]
pub(crate) fn is_verdict(reply: &Reply) -> bool
    ensures { result ≡ is_verdict reply.now }
{
    match reply {
        Reply::Verdict(_) => true,
        _ => false,
    }
}

#[inline]
pub(crate) fn is_held(reply: &Reply) -> bool
    ensures { result ≡ is_held reply.now }
{
    match reply {
        Reply::Held => true,
        _ => false,
    }
}

#[inline]
pub(crate) fn hits(mask: u32, value: u32, reply: &Reply) -> bool
    ensures { result ≡ hits mask value reply.now }
{
    match reply {
        Reply::Value(read) => *read & mask == value,
        _ => false,
    }
}

#[inline]
pub(crate) fn next_requester(reply: &Reply) -> Option<u8>
    ensures { result ≡ next_requester reply.now }
{
    match reply {
        Reply::Verdict(Verdict::Allowed { next }) if *next <= 63 => Some(*next),
        _ => None,
    }
}

/// Whether two events are one.
#[inline(always)]
pub(crate) fn same_event(a: &Event, b: &Event) -> bool
    ensures { result ≡ same_event a.now b.now }
{
    *a == *b
}
