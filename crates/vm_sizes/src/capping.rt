//! Sums of words and paths, which stop at 2^64 - 1, whatever is added up.

ghost use Rattle.std.specs.Prelude.{◌≡◌, ◌+◌};
ghost use Rattle.vm_sizes.specs.Counts.{capped};

/// The sum of two numbers, as far as it is counted.
pub(crate) fn add(a: usize, b: usize) -> usize
    ensures { result ≡ capped (a + b) }
{
    a.saturating_add(b)
}
