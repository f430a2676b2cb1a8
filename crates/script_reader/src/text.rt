// The lines of a text, one after another.
ghost use Rattle.std.specs.Prelude.{◌≡◌, true, IfSome};
ghost use Rattle.std.specs.List.{list_all};
ghost use Rattle.script_reader.specs.Text.{is_plain, is_plain_or_feed, IsPlainLine, lines_of, words_of, Takes};

use crate::words::Words;
use std::marker::Model;

fn is_plain_byte(byte: u8) -> bool
    ensures { result ≡ is_plain byte }
{
    matches!(byte, b' '..=b'~' | b'\t' | b'\r')
}

fn is_plain_or_feed(byte: u8) -> bool
    ensures { result ≡ is_plain_or_feed byte }
{
    is_plain_byte(byte) | (byte == b'\n')
}

/// Whether each line of a text is plain. All bytes are looked at, many at once.
pub fn is_plain_text(text: &[u8]) -> bool
    ensures { result ≡ list_all is_plain_or_feed text.now }
{
    let mut plain = true;
    for byte in text {
        plain &= is_plain_or_feed(*byte);
    }
    plain
}

fn are_plain_bytes(line: &[u8]) -> bool
    ensures { result ≡ list_all is_plain line.now }
{
    line.iter().all(|b| is_plain_byte(*b))
}

/// Whether each byte may stand in a line. The bytes are looked at only where it isn't known that they may.
pub fn is_plain_line(line: &[u8], known: bool) -> bool
    requires { known ≡ true → IsPlainLine line.now }
    ensures { result ≡ list_all is_plain line.now }
{
    known || are_plain_bytes(line)
}

/// The lines of a text that are left.
#[derive(Drop)]
pub struct Lines<'a> {
    rest: &'a [u8],
}

impl<'a> Model for Lines<'a> {
    ghost use Rattle.std.specs.Prelude.{ℕ, List};
    ghost use Rattle.script_reader.specs.Text.{lines_of};

    ghost Value = { List (List ℕ) };

    ghost view = { λ l. lines_of l.rest.now };
}

impl<'a> Lines<'a> {
    /// The lines of a text. The line feed of the last one may be missing.
    pub fn of(text: &'a [u8]) -> Lines<'a>
        ensures { result ≡ lines_of text.entry.now }
    {
        Lines { rest: text }
    }

    /// Takes the first line, without its line feed, and its words.
    pub fn next(&mut self, words: &mut Words<'a>) -> Option<&'a [u8]>
        ensures line { Takes self.old self.new result }
        ensures words { IfSome result (λ line. words.new ≡ words_of line.now) }
    {
        let text = self.rest;
        if text.is_empty() {
            return None;
        }
        let end = words.read(text);
        if end < text.len() {
            self.rest = &text[end + 1..];
            return Some(&text[..end]);
        }
        self.rest = &[];
        Some(text)
    }
}
