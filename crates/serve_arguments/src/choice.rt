use plant_types::Text;
use std::alloc::AllocError;

/// What the program is asked for.
#[derive(Drop)]
pub enum Choice {
    /// To serve the example plant.
    Example,
    /// To check the plant whose file has this path.
    Check(Text),
    /// To serve the plant whose file has this path, with this number of workers.
    Run(Text, u32),
}

/// Why the words choose nothing.
#[derive(Drop)]
pub enum UsageFault {
    /// Memory was refused.
    Memory,
    /// Help was asked for: its text, for the standard output.
    Help(Text),
    /// The version was asked for: its text, for the standard output.
    Version(Text),
    /// The words are no command line: the text for the standard error.
    Usage(Text),
}

impl From<AllocError> for UsageFault {
    ghost use Rattle.std.specs.Prelude.{◌≡◌};
    ghost use Rattle.serve_arguments.specs.declared.choice.UsageFault.TheVariants.{Memory};

    ghost from_gives = { λ _ e. e ≡ Memory };

    fn from(_refused: AllocError) -> UsageFault {
        UsageFault::Memory
    }
}
