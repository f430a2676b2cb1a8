// How an entry's address registers name its bytes.
ghost use Rattle.std.specs.Prelude.{◌≡◌};
ghost use Rattle.event_words.specs.Registers.{bits_of};
ghost use Rattle.event_words.specs.Entries.{mode_at};

/// The address mode of an entry, in the bits 4:3 of its ENTRY_CFG.
#[derive(Clone, Copy, Debug, PartialEq, Eq)]
pub enum AddressMode {
    /// No byte (0).
    Off,
    /// From the word address of the entry before, or from 0 for entry 0, up to its own (1).
    Tor,
    /// The 4 bytes at its word address (2).
    Na4,
    /// A block that is a power of two, of at least 8 bytes: as many trailing ones of its word address as tell
    /// its size are no part of the address (3).
    Napot,
}

impl AddressMode {
    /// The mode that a word of ENTRY_CFG names.
    pub fn of_cfg(word: u32) -> AddressMode
        ensures { result ≡ mode_at (bits_of 3 2 word) }
    {
        match word >> 3 & 3 {
            0 => AddressMode::Off,
            1 => AddressMode::Tor,
            2 => AddressMode::Na4,
            _ => AddressMode::Napot,
        }
    }
}
