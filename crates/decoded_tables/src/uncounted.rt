// A decision of which no one counts the looks.
ghost use Rattle.std.specs.Prelude.{◌≡◌, ◌<◌};
ghost use Rattle.event_words.specs.Valid.{IsValidAccess};
ghost use Rattle.event_words.specs.Decisions.{decision};
ghost use Rattle.decoded_tables.specs.Standing.{StandsFor};

use crate::{Decoded, Steps};
use event_words::{Access, Decision};
use register_fields::Regs;
use std::marker::Brand;
use std::sync::ledger::{Blank, Ledger};

/// The decision, with a count of looks that no one reads.
fn decide_for<L: Ledger>(decoded: &Decoded, regs: &Regs, access: &Access, blank: Blank) -> Decision
    requires stands { StandsFor decoded.now regs.now }
    requires access { IsValidAccess access.now }
    requires name { blank.name ≡ L.name }
    requires parts { blank.parts ≡ L.parts }
    requires some { 0 < blank.parts }
    ensures { result ≡ decision regs.now access.now }
{
    let mut looks = Steps::<L>::new(blank);
    decoded.decide(regs, access, &mut looks)
}

impl Decoded {
    /// What the tables decide about a transaction, as `decide` does, without a count of looks.
    pub fn decide_uncounted(&self, regs: &Regs, access: &Access) -> Decision
        requires stands { StandsFor self.now regs.now }
        requires access { IsValidAccess access.now }
        ensures { result ≡ decision regs.now access.now }
    {
        decide_for::<Brand>(self, regs, access, Blank::new(1))
    }
}
