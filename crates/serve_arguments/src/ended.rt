ghost use Rattle.std.specs.Prelude.{◌≡◌};
ghost use Rattle.serve_arguments.specs.Statuses.{status};

/// How the program ended.
#[derive(Clone, Copy, Drop)]
pub enum Ended {
    /// It did what it was asked for, or printed help.
    Done,
    /// It stopped serving: an allocation, a read or a write failed.
    Fault,
    /// The words are no command line.
    Usage,
    /// The plant isn't accepted.
    Refused,
}

/// Returns the program's exit status: 0 if done, 1 after a fault, 2 for usage and 3 if the plant is refused.
pub fn status(ended: &Ended) -> u8
    ensures { result ≡ status ended.now }
{
    match *ended {
        Ended::Done => 0,
        Ended::Fault => 1,
        Ended::Usage => 2,
        Ended::Refused => 3,
    }
}
