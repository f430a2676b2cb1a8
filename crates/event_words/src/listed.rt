// An event with its line, of which the next event keeps what it can.
ghost use Rattle.std.specs.Prelude.{◌≡◌, ◌+◌, ◌≤◌, ◌++◌, Some, None, length, drop, true, false};
ghost use Rattle.std.specs.Fmt.{decimal};
ghost use Rattle.event_words.specs.ReportLines.{event_end, event_line};
ghost use Rattle.event_words.specs.Word.{event_of_word};

use crate::{Event, Line, LoggedEvent, Reply, unpack};
use std::marker::Model;

/// Makes what stands behind the place of an event.
fn make_end(line: &mut Line, event: &Event, reply: &Reply)
    ensures text { line.new ≡ event_end event.now reply.now }
    ensures few { length line.new ≤ 236 }
{
    line.clear();
    line.put(b"\n");
    line.put_reply(reply);
    line.put(b" = ");
    line.put_event(event);
    line.put(b" ");
    line.put_decimal(event.caller() as u64);
    line.put(b" ");
}

/// Puts a place before what there is, and answers how many bytes the place has.
#[inline(always)]
fn put_place(line: &mut Line, place: u32) -> usize
    requires { length line.old ≤ 236 }
    ensures text { line.new ≡ decimal place ++ line.old }
    ensures end { drop result line.new ≡ line.old }
    ensures count { length line.new ≡ result + length line.old }
{
    let behind = line.bytes().len();
    line.put_decimal(place as u64);
    line.bytes().len() - behind
}

/// Makes the line of an event, and answers how many bytes its place has.
fn make_line(line: &mut Line, logged: &LoggedEvent) -> usize
    ensures text { line.new ≡ event_line logged.now }
    ensures end { drop result line.new ≡ event_end logged.now.event logged.now.reply }
    ensures within { result ≤ length line.new }
    ensures few { length line.new ≤ 236 + result }
{
    make_end(line, &logged.event, &logged.reply);
    put_place(line, logged.place)
}

/// An event of a history with its line. Where the next has the same word and the same reply, only the
/// place is written anew.
#[derive(Drop)]
pub struct Listed {
    word: u64,
    logged: LoggedEvent,
    line: Line,
    /// How many bytes the place has.
    front: usize,
}

impl Model for Listed {
    ghost use Rattle.event_words.specs.declared.record.LoggedEvent.{LoggedEvent as Logged};
    ghost use Rattle.event_words.specs.Listed.{IsListed};

    ghost Value = { Logged };

    ghost view = { λ l. l.logged };

    ghost invariant = { λ l. IsListed l.word l.logged l.line l.front };
}

impl Listed {
    /// The reading of a register, as it were the first event.
    pub fn new() -> Listed {
        let logged = LoggedEvent {
            place: 0,
            event: Event::RegRead {
                unit: 0,
                caller: 0,
                index: 0,
            },
            reply: Reply::Value(0),
        };
        let mut line = Line::new();
        let front = make_line(&mut line, &logged);
        Listed {
            word: 2 << 61,
            logged,
            line,
            front,
        }
    }

    /// The event.
    #[inline(always)]
    pub fn logged(&self) -> &LoggedEvent
        ensures { result.now ≡ self.now }
    {
        &self.logged
    }

    /// Its line.
    #[inline(always)]
    pub fn bytes(&self) -> &[u8]
        ensures { result.now ≡ event_line self.now }
    {
        self.line.bytes()
    }

    /// Goes on to an event of the same word.
    #[inline(always)]
    fn go_on(&mut self, place: u32, reply: Reply)
        ensures event { self.new.event ≡ self.old.event }
        ensures place { self.new.place ≡ place }
        ensures reply { self.new.reply ≡ reply }
    {
        self.logged.place = place;
        if reply == self.logged.reply {
            self.line.cut(self.front);
            self.front = put_place(&mut self.line, place);
            return;
        }
        self.logged.reply = reply;
        self.front = make_line(&mut self.line, &self.logged);
    }

    /// Goes on to this event, of which this is the word.
    #[inline(always)]
    pub fn set(&mut self, word: u64, logged: &LoggedEvent)
        requires { event_of_word word ≡ Some logged.now.event }
        ensures { self.new ≡ logged.now }
    {
        if word == self.word {
            self.go_on(logged.place, logged.reply);
            return;
        }
        self.word = word;
        self.logged = *logged;
        self.front = make_line(&mut self.line, logged);
    }

    /// Goes on to the event of this word, with its place and its reply. `false` where the word is no event's.
    #[inline(always)]
    pub fn take(&mut self, place: u32, word: u64, reply: Reply) -> bool
        ensures event { result ≡ true → event_of_word word ≡ Some self.new.event }
        ensures place { result ≡ true → self.new.place ≡ place }
        ensures reply { result ≡ true → self.new.reply ≡ reply }
        ensures none { result ≡ false → event_of_word word ≡ None }
    {
        if word == self.word {
            self.go_on(place, reply);
            return true;
        }
        let Some(event) = unpack(word) else {
            return false;
        };
        self.word = word;
        self.logged.place = place;
        self.logged.event = event;
        self.logged.reply = reply;
        self.front = make_line(&mut self.line, &self.logged);
        true
    }
}
