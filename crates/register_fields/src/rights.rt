// Rights of an entry or of a policy's rule.
ghost use Rattle.std.specs.Prelude.{⊤, [], ◌∷◌, codes};
ghost use Rattle.register_fields.specs.Rights.{rights_bits};

use bitflags::{Flag, Flags, bitflag_items};

/// A set of rights: to read (1), to write (2) and to fetch (4). Contracts see it as its bits.
#[derive(Clone, Copy, PartialEq, Eq, Debug)]
pub struct Rights(u8);

bitflag_items! {
    impl Rights: u8 {
        const R = 1;
        const W = 2;
        const X = 4;
    }
}

impl Flags for Rights {
    type Bits = u8;

    ghost exact = { ⊤ };

    ghost table = { (codes "R", 1) ∷ (codes "W", 2) ∷ (codes "X", 4) ∷ [] };

    ghost set_of = { rights_bits };

    fn flags<'a>() -> &'a [Flag<Rights>] {
        Rights::FLAGS
    }

    fn bits(&self) -> u8 {
        self.0
    }

    fn from_bits_retain(bits: u8) -> Rights {
        Rights(bits)
    }
}
