// The words of one line.
ghost use Rattle.std.specs.Prelude.{◌≡◌, ◌==◌, ◌<◌, [], false, length, slice_index, slice_set};
ghost use Rattle.script_reader.specs.Text.{is_blank, ends_word, line_end, first_line, words_of};
ghost use Rattle.script_reader.specs.Words.{after_space, word_at, is_word_at, HoldsWords, IsWordTo};

use std::marker::Model;

/// The most words whose places are kept: those of a unit line, the longest.
const MOST_WORDS: usize = 19;

fn is_blank_byte(byte: u8) -> bool
    ensures { result ≡ is_blank byte }
{
    byte == b' ' || byte == b'\t' || byte == b'\r'
}

/// Whether a word ends before a byte.
fn ends_word(byte: u8) -> bool
    ensures { result ≡ ends_word byte }
{
    is_blank_byte(byte) || byte == b'\n'
}

/// Where the word ends that begins at a place of a text's first line, and the place after it, past a space that may stand
/// there. Most bytes are above a space, and most words end at one.
fn word_end(text: &[u8], start: usize) -> (usize, usize)
    requires within { start < line_end text.now }
    requires begins { is_blank (slice_index text.now start) ≡ false }
    ensures word { IsWordTo (first_line text.now) start result.0 }
    ensures after { result.1 ≡ after_space text.now result.0 }
{
    let mut end = start + 1;
    while end < text.len() {
        let byte = text[end];
        if byte <= b' ' {
            if byte == b' ' {
                return (end, end + 1);
            }
            if ends_word(byte) {
                return (end, end);
            }
        }
        end += 1;
    }
    (text.len(), text.len())
}

/// Keeps a place where there is room for it.
fn keep(places: &mut [usize; MOST_WORDS], i: usize, place: usize)
    ensures { places.new ≡ slice_set places.old i place }
{
    if i < MOST_WORDS {
        places[i] = place;
    }
}

/// Where the words of a text's first line begin and end, as far as places are kept, how many there are, and where the
/// line ends.
fn split(
    text: &[u8],
    starts: &mut [usize; MOST_WORDS],
    ends: &mut [usize; MOST_WORDS],
) -> (usize, usize)
    ensures line { result.1 ≡ line_end text.now }
    ensures words { HoldsWords (first_line text.now) starts.new ends.new result.0 }
{
    let mut count = 0;
    let mut at = 0;
    while at < text.len() {
        if text[at] == b'\n' {
            return (count, at);
        }
        if is_blank_byte(text[at]) {
            at += 1;
        } else {
            let (end, next) = word_end(text, at);
            keep(starts, count, at);
            keep(ends, count, end);
            count += 1;
            at = next;
        }
    }
    (count, at)
}

/// The words of a line. Only the places of the first 19 are kept, so that one value serves each line in turn.
#[derive(Drop)]
pub struct Words<'a> {
    line: &'a [u8],
    starts: [usize; MOST_WORDS],
    ends: [usize; MOST_WORDS],
    count: usize,
}

impl<'a> Model for Words<'a> {
    ghost use Rattle.std.specs.Prelude.{ℕ, List};
    ghost use Rattle.script_reader.specs.Text.{words_of};
    ghost use Rattle.script_reader.specs.Words.{HoldsWords};

    ghost Value = { List (List ℕ) };

    ghost view = { λ w. words_of w.line.now };

    ghost invariant = { λ w. HoldsWords w.line.now w.starts w.ends w.count };
}

impl<'a> Words<'a> {
    /// The words of an empty line: none.
    pub fn new() -> Words<'a>
        ensures { result ≡ [] }
    {
        Words {
            line: &[],
            starts: [0; MOST_WORDS],
            ends: [0; MOST_WORDS],
            count: 0,
        }
    }

    /// The words of a text's first line instead. It answers where the line ends.
    pub fn read(&mut self, text: &'a [u8]) -> usize
        ensures line { result ≡ line_end text.entry.now }
        ensures words { self.new ≡ words_of (first_line text.entry.now) }
    {
        let (count, end) = split(text, &mut self.starts, &mut self.ends);
        self.count = count;
        self.line = &text[..end];
        end
    }

    /// The number of words.
    pub fn len(&self) -> usize
        ensures { result ≡ length self.now }
    {
        self.count
    }

    /// Whether the line has no words.
    pub fn is_empty(&self) -> bool
        ensures { result ≡ (length self.now == 0) }
    {
        self.count == 0
    }

    /// The word at a place below 19 from 0, without bytes after the last word.
    pub fn word(&self, i: usize) -> &'a [u8]
        requires { i < 19 }
        ensures { result.now ≡ word_at self.now i }
    {
        if i < self.count {
            &self.line[self.starts[i]..self.ends[i]]
        } else {
            &[]
        }
    }

    /// Whether the word at a place below 19 from 0 is this text.
    pub fn is_word(&self, i: usize, text: &[u8]) -> bool
        requires { i < 19 }
        ensures { result ≡ is_word_at self.now i text.now }
    {
        self.word(i) == text
    }
}
