// Each write is handed all that is left of the text.
ghost use Rattle.std.specs.Prelude.{None};

use crate::tests::each_command::COMMANDS;
use crate::tests::split_words;
use crate::{Status, top};
use checker_workers::FreeGate;
use edge_io::{Failed, MemorySource, Sink};
use std::test::Fail;

/// A sink that takes at most 100 bytes a write, and notes how many bytes the first piece had, how many
/// it took, and whether a piece was less or more than what was left of the first.
#[derive(Drop)]
struct Measure {
    whole: usize,
    taken: usize,
    differs: bool,
}

impl Sink for Measure {
    ghost taken = { λ s. None };

    ghost faults = { λ s. 0 };

    fn write(&mut self, piece: &[u8]) -> Result<usize, Failed> {
        if self.taken == 0 {
            self.whole = piece.len();
        }
        if piece.len() != self.whole.saturating_sub(self.taken) {
            self.differs = true;
        }
        let count = piece.len().min(100);
        self.taken = self.taken.saturating_add(count);
        Ok(count)
    }
}

#[test]
fn each_write_is_handed_all_that_is_left(rt: HostRuntime) -> Result<(), Fail> {
    let alloc = rt.alloc();
    for command in COMMANDS {
        let words = split_words(alloc, command.words)?;
        for input in [command.input, ""] {
            let bytes = input.as_bytes().to_vec(alloc)?;
            let mut source = MemorySource::new(bytes, Vec::new(alloc), 4096);
            let mut sink = Measure {
                whole: 0,
                taken: 0,
                differs: false,
            };
            let outcome = top(&rt, alloc, &words, &mut source, &mut sink, &FreeGate);
            assert!(rt; matches!(outcome.status, Status::Done | Status::BadInput));
            assert!(rt; sink.whole > 0 && sink.taken == sink.whole && !sink.differs);
        }
    }
    Ok(())
}
