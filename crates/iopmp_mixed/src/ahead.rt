// A source that can be looked at before it is read.
ghost use Rattle.std.specs.Prelude.{◌≡◌, ℕ, ◌≤◌, ◌++◌, length, [], false};
ghost use Rattle.std.specs.Io.{ReadsAtMost};
ghost use Rattle.std.specs.Io.KnownBytes.{ReadConsumes, prepend_known};
ghost use Rattle.edge_io.specs.Faults.{CountsFaults};
ghost use Rattle.edge_io.specs.Streams.{TakesFront};
ghost use Rattle.iopmp_mixed.specs.Aheads.{AheadView, left_of, handed_on, LooksAhead};

use edge_io::{Failed, Source};
use std::alloc::Global;
use std::marker::Model;

/// How many bytes a look asks for.
const PIECE: usize = 8192;

/// Takes bytes until the source ends, fails, or there are more than `limit`. It answers whether it failed.
fn take_ahead<S: Source>(source: &mut S, bytes: &mut Vec<u8>, limit: usize) -> bool
    ensures { TakesFront (S.left source.old) (S.left source.new)
        (λ given. bytes.new.items ≡ bytes.old.items ++ given) }
{
    let mut piece = [0u8; PIECE];
    while bytes.len() <= limit {
        if bytes.try_reserve(PIECE).is_err() {
            return false;
        }
        let Ok(count) = source.read(&mut piece) else {
            return true;
        };
        if count == 0 {
            return false;
        }
        bytes.extend_from_slice(&piece[..count]).unwrap();
    }
    false
}

/// A source over another, from which it may have taken bytes already. It gives those first, then its failure where
/// it met one, and then what the other gives. Contracts see the other source, the bytes, whether a failure waits,
/// and how many it has handed on.
#[derive(Drop)]
pub struct AheadSource<S> {
    inner: S,
    bytes: Vec<u8>,
    at: usize,
    failed: bool,
    faults: u64,
}

impl<S> Model for AheadSource<S> {
    ghost use Rattle.std.specs.Prelude.{ℕ, ◌≤◌, length, drop};
    ghost use Rattle.iopmp_mixed.specs.Aheads.{AheadView};

    ghost Value = { AheadView S };

    ghost view = { λ s. record {
      inner = s.inner;
      ahead = drop s.at s.bytes.items;
      failed = s.failed;
      faults = s.faults;
    } };

    ghost invariant = { λ s. s.at ≤ length s.bytes.items };
}

impl<S: Source> AheadSource<S> {
    /// Nothing is taken yet.
    pub fn new(alloc: Global, inner: S) -> AheadSource<S>
        ensures { result ≡ record { inner = inner; ahead = []; failed = false; faults = 0 } }
    {
        AheadSource {
            inner,
            bytes: Vec::new(alloc),
            at: 0,
            failed: false,
            faults: 0,
        }
    }

    /// Takes bytes from the other source until it ends, fails, or gave more than `limit`. What is left stays.
    pub fn read_ahead(&mut self, limit: usize)
        ensures { LooksAhead S.left self.old self.new }
    {
        if !self.failed {
            self.failed = take_ahead(&mut self.inner, &mut self.bytes, limit);
        }
    }

    /// The bytes that were taken and not yet given.
    pub fn ahead(&self) -> &[u8]
        ensures { result.now ≡ self.now.ahead }
    {
        &self.bytes[self.at..]
    }
}

impl<S: Source> Source for AheadSource<S> {
    ghost left = { left_of S.left };

    ghost faults = { handed_on };

    fn read(&mut self, buf: &mut [u8]) -> Result<usize, Failed>
        ensures bound { ReadsAtMost result buf.new }
        ensures bytes { ReadConsumes (left_of S.left self.old)
            (left_of S.left self.new) result buf.new }
        ensures counted { CountsFaults self.old.faults self.new.faults result }
    {
        let count = buf.len().min(self.bytes.len() - self.at);
        if count > 0 {
            buf[..count].copy_from_slice(&self.bytes[self.at..self.at + count]);
            self.at += count;
            return Ok(count);
        }
        if self.failed {
            self.failed = false;
            self.faults = self.faults.saturating_add(1);
            return Err(Failed);
        }
        match self.inner.read(buf) {
            Ok(count) => Ok(count),
            Err(failed) => {
                self.faults = self.faults.saturating_add(1);
                Err(failed)
            }
        }
    }
}
