// The one line that is written where the words are no command or the input is too long.
ghost use Rattle.std.specs.Prelude.{◌≡◌};
ghost use Rattle.iopmp_program.specs.FaultLines.{usage_line, too_long_line};

/// Where the words are no command.
pub fn usage_line() -> &'static str
    ensures { result.now ≡ usage_line }
{
    "iopmp: usage: iopmp run | compile | plan | live | gen N | soak N | faults | audit | narrow | narrow live\n"
}

/// Where more than 4194304 bytes are given.
pub fn too_long_line() -> &'static str
    ensures { result.now ≡ too_long_line }
{
    "iopmp: input is longer than 4194304 bytes\n"
}
