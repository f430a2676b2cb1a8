// A cursor for each section of a script.
ghost use Rattle.std.specs.Prelude.{◌∷◌, ◌≤◌, length, IfOk};
ghost use Rattle.section_cursor.specs.Fresh.{AreFresh};

use crate::Cursor;
use event_words::Section;
use std::alloc::{AllocError, Global};

/// Cursors of the boot section and of the lanes, before the first event, by the numbers of their callers.
pub fn section_cursors<'a>(
    alloc: Global,
    boot: &'a Section,
    lanes: &'a [Section],
) -> Result<Vec<Cursor<'a>>, AllocError>
    requires { length lanes.now ≤ 16 }
    ensures fresh { IfOk result (λ cs. AreFresh 0 cs.items (boot.now ∷ lanes.now)) }
    ensures few { IfOk result (λ cs. length cs.items ≤ 17) }
{
    let mut cursors = Vec::with_capacity(alloc, lanes.len() + 1)?;
    cursors.push(Cursor::new(alloc, 0, boot)?)?;
    for (i, lane) in lanes.iter().enumerate() {
        cursors.push(Cursor::new(alloc, i as u8 + 1, lane)?)?;
    }
    Ok(cursors)
}
