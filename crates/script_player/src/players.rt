// What the lanes of a script are made of, which is taken before the first event.
ghost use Rattle.std.specs.Prelude.{◌≡◌, ◌≤◌, length, map, IfOk};
ghost use Rattle.std.specs.List.{AllByRecursion};
ghost use Rattle.event_words.specs.Valid.{IsValidShape};
ghost use Rattle.script_player.specs.PlayedSections.{IsPlayer, section_of};

use crate::memory::NoMemory;
use event_words::{Reply, Section, Shape};
use std::alloc::{AllocError, Global};
use unit_core::Fabric;

/// Who plays a section: the section itself, a replica of the units, and a list for the replies to its events.
#[derive(Drop)]
pub struct Player {
    pub section: Section,
    pub replica: Fabric,
    pub replies: Vec<Reply>,
}

/// The same section again.
fn copy_section(alloc: Global, section: &Section) -> Result<Section, AllocError>
    ensures { IfOk result (λ copy. copy ≡ section.now) }
{
    let Section { commands, slots } = section;
    Ok(Section {
        commands: commands.to_vec(alloc)?,
        slots: *slots,
    })
}

/// The same sections again.
pub fn copy_sections(alloc: Global, sections: &[Section]) -> Result<Vec<Section>, AllocError>
    ensures { IfOk result (λ copies. copies.items ≡ sections.now) }
{
    let mut copies = Vec::new(alloc);
    for section in sections {
        let copy = copy_section(alloc, section)?;
        copies.push(copy)?;
    }
    Ok(copies)
}

/// A player of a section, its units at reset.
fn make_player(
    alloc: Global,
    shapes: &[Shape],
    places: u32,
    budget: u32,
    section: Section,
) -> Result<Player, NoMemory>
    requires count { (1 ≤ length shapes.now) × (length shapes.now ≤ 4) }
    requires shapes { AllByRecursion IsValidShape shapes.now }
    requires places { places ≤ 1048576 }
    ensures section { IfOk result (λ player. player.section ≡ section) }
    ensures made { IfOk result (λ player. IsPlayer shapes.now places budget player) }
{
    let replica = Fabric::open(alloc, shapes, places)?;
    let replies = Vec::with_capacity(alloc, budget as usize)?;
    Ok(Player {
        section,
        replica,
        replies,
    })
}

/// A player for each section, in their order.
pub fn make_players(
    alloc: Global,
    shapes: &[Shape],
    places: u32,
    budget: u32,
    sections: Vec<Section>,
) -> Result<Vec<Player>, NoMemory>
    requires count { (1 ≤ length shapes.now) × (length shapes.now ≤ 4) }
    requires shapes { AllByRecursion IsValidShape shapes.now }
    requires places { places ≤ 1048576 }
    ensures sections { IfOk result (λ players. map section_of players.items ≡ sections.items) }
    ensures made { IfOk result (λ players.
        AllByRecursion (IsPlayer shapes.now places budget) players.items) }
{
    let mut players = Vec::new(alloc);
    for section in sections {
        let player = make_player(alloc, shapes, places, budget, section)?;
        if players.push(player).is_err() {
            return Err(NoMemory);
        }
    }
    Ok(players)
}
