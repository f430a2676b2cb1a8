// Where bytes come from and where they go. A stream may tell what it has left or took, and it counts its faults.
ghost use Rattle.std.specs.Prelude.{◌≡◌, ℕ, ◌<◌, ◌≤◌, List, length, IfOk};
ghost use Rattle.std.specs.declared.option.Option.{Option};
ghost use Rattle.std.specs.Io.{ReadsAtMost, WritesAtMost};
ghost use Rattle.std.specs.Io.KnownBytes.{ReadConsumes, WriteAppends};
ghost use Rattle.edge_io.specs.Faults.{CountsFaults, Rose, one_more_fault};

/// A call failed: it moved no bytes, and the count of faults rose.
#[derive(Clone, Copy, Debug, PartialEq, Eq)]
pub struct Failed;

/// Counts a fault.
pub(crate) fn counted(faults: &mut u64) -> Failed
    ensures one { faults.new ≡ one_more_fault faults.old }
    ensures kept { faults.old ≤ faults.new }
    ensures rose { Rose faults.old faults.new }
{
    *faults = faults.saturating_add(1);
    Failed
}

/// Where bytes come from.
pub trait Source {
    /// The bytes that are left, where the source tells them.
    ghost left: { Self → Option (List ℕ) };

    /// How often a call has failed, which never falls.
    ghost faults: { Self → ℕ };

    /// Moves the first bytes that are left to the front of `buf`, and answers how many, at most the length of `buf`.
    /// `Ok(0)` into a buffer that isn't empty is the end of the input.
    /// `Failed` leaves what is left as it was, and comes only where the count of faults rose.
    fn read(&mut self, buf: &mut [u8]) -> Result<usize, Failed>
        ensures bound { ReadsAtMost result buf.new }
        ensures bytes { ReadConsumes (left self.old) (left self.new) result buf.new }
        ensures counted { CountsFaults (faults self.old) (faults self.new) result };
}

/// Where bytes go.
pub trait Sink {
    /// The bytes that were taken, where the sink tells them.
    ghost taken: { Self → Option (List ℕ) };

    /// How often a call has failed, which never falls.
    ghost faults: { Self → ℕ };

    /// Takes the first bytes of `piece` behind those taken before, and answers how many: at most its length, and at
    /// least one of a piece that isn't empty.
    /// `Failed` takes nothing, and comes only where the count of faults rose.
    fn write(&mut self, piece: &[u8]) -> Result<usize, Failed>
        ensures bound { WritesAtMost result piece.now }
        ensures progress { IfOk result (λ n. 0 < length piece.now → 0 < n) }
        ensures bytes { WriteAppends (taken self.old) (taken self.new) result piece.now }
        ensures counted { CountsFaults (faults self.old) (faults self.new) result };
}
