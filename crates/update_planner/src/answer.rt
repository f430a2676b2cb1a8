// Plans, and why there is none.
ghost use Rattle.std.specs.Prelude.{◌≡◌};
ghost use Rattle.update_planner.specs.declared.answer.PlanError.TheVariants.{NoMemory};
ghost use Rattle.update_planner.specs.Gives.{section_with};

use event_words::{Command, Section};
use policy_compiler::CompileError;
use std::alloc::AllocError;

/// The commands that take a unit from one policy to another.
#[derive(Debug, Drop)]
pub struct Plan {
    pub section: Section,
}

impl Plan {
    /// The plan of these commands, none of which submits.
    pub fn of(commands: Vec<Command>) -> Plan
        ensures { result.section ≡ section_with commands.items }
    {
        Plan {
            section: Section { commands, slots: 0 },
        }
    }
}

/// Why there is no plan.
#[derive(Clone, Copy, Debug, PartialEq, Eq)]
pub enum PlanError {
    /// The units differ. The field is the first that does, numbered from 0 in the order of `Shape`.
    ShapesDiffer { field: u8 },
    /// A policy needs more than its unit has: the newer one or the older one. The error is never
    /// `NoMemory`.
    Compile { newer: bool, error: CompileError },
    NoMemory,
}

impl From<AllocError> for PlanError {
    ghost from_gives = { λ _ e. e ≡ NoMemory };

    fn from(_: AllocError) -> PlanError {
        PlanError::NoMemory
    }
}
