// The bytes of a report that are not read yet.
ghost use Rattle.std.specs.Prelude.{◌≡◌, ◌++◌, ℕ, List, true};

use std::marker::Model;

/// The bytes after the lines that came so far.
#[derive(Drop)]
pub struct Unread<'a> {
    bytes: &'a [u8],
}

impl<'a> Model for Unread<'a> {
    ghost use Rattle.std.specs.Prelude.{ℕ, List};

    ghost Value = { List ℕ };

    ghost view = { λ u. u.bytes.now };
}

impl<'a> Unread<'a> {
    /// All of a report's bytes.
    pub fn of(bytes: &'a [u8]) -> Unread<'a>
        ensures { result ≡ bytes.now }
    {
        Unread { bytes }
    }

    /// What is not read yet.
    pub fn bytes(&self) -> &[u8]
        ensures { result.now ≡ self.now }
    {
        self.bytes
    }

    /// Goes past this text, where it comes next.
    pub fn take(&mut self, text: &[u8]) -> bool
        ensures yes { result ≡ true → self.old ≡ text.now ++ self.new }
        ensures no { (rest : List ℕ) → self.old ≡ text.now ++ rest → result ≡ true }
    {
        let size = text.len();
        if self.bytes.len() < size {
            return false;
        }
        if &self.bytes[..size] != text {
            return false;
        }
        self.bytes = &self.bytes[size..];
        true
    }
}
