// The commands of the program.
ghost use Rattle.std.specs.Prelude.{◌≡◌};
ghost use Rattle.command_answers.specs.CommandTables.{reads};

/// What the program is asked to do.
#[derive(Clone, Copy, Debug, PartialEq, Eq)]
pub enum Subcommand {
    /// Plays a script and prints the report of its history.
    Run,
    /// Compiles a policy and prints the script of its image.
    Compile,
    /// Prints the plan from one policy to another, as a lane.
    Plan,
    /// Plays the plan beside lanes and prints the report of its history.
    Live,
    /// Prints the generated script of a number.
    Gen(u32),
    /// Runs the generated script of a number and prints a summary of its history.
    Soak(u32),
    /// Plays a script and prints its report with the windows of later violations.
    Faults,
    /// Says whether a report is that of a legal history of a script.
    Audit,
    /// Prints the narrow plan from one policy to another, as a lane.
    Narrow,
    /// Plays the narrow plan beside lanes and prints the report of the history.
    NarrowLive,
}

impl Subcommand {
    /// Whether the command reads its input.
    pub fn reads(&self) -> bool
        ensures { result ≡ reads self.now }
    {
        match self {
            Subcommand::Run
            | Subcommand::Compile
            | Subcommand::Plan
            | Subcommand::Live
            | Subcommand::Faults
            | Subcommand::Audit
            | Subcommand::Narrow
            | Subcommand::NarrowLive => true,
            Subcommand::Gen(_) | Subcommand::Soak(_) => false,
        }
    }
}
