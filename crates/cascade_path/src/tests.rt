use crate::{ChainReply, send_through};
use event_words::{Access, Kind, Reply};
use shared_log::Shared;
use shared_log::toy::Adder;
use std::test::Fail;

// The adder replies the sum of the words that it took: of the first event's, its low 32 bits, which are those of the
// address, 0x5. Of an access that isn't narrow it takes the Aim first. Either way nothing follows the odd reply.
#[test]
fn an_odd_reply_ends_the_access(rt: HostRuntime) -> Result<(), Fail> {
    for (len, budget) in [(1, 2), (4096, 3)] {
        let Ok((shared, mut caller)) = Shared::open(rt.alloc(), 1, budget, Adder::new(budget))
        else {
            panic!(rt; "no memory");
        };
        let access = Access {
            rrid: 3,
            kind: Kind::Read,
            addr: 0x5,
            len,
        };
        let odd = ChainReply::Odd {
            stage: 0,
            reply: Reply::Value(5),
        };
        assert!(rt; send_through(&mut caller, &shared, &[0], access, 1) == odd);
        assert!(rt; caller.left() == budget - 1 && caller.place() == 1);
    }
    Ok(())
}
