//! Numbers that stop: none gets past a last one, whatever is added up.

ghost use Rattle.std.specs.Prelude.{◌≡◌, ◌+◌, ◌*◌, min};

/// The sum, or the last number if the sum is past it.
pub fn add(last: u64, a: u64, b: u64) -> u64
    ensures { result ≡ min (a + b) last }
{
    a.saturating_add(b).min(last)
}

/// The product, or the last number if the product is past it.
pub fn multiply(last: u64, a: u64, b: u64) -> u64
    ensures { result ≡ min (a * b) last }
{
    a.saturating_mul(b).min(last)
}

/// A number that may be large, or the last number if it is past it.
pub fn narrow(last: u64, n: u128) -> u64
    ensures { result ≡ min n last }
{
    if n < u128::from(last) { n as u64 } else { last }
}

/// A length, or the last number if it is past it.
pub fn count(last: u64, n: usize) -> u64
    ensures { result ≡ min n last }
{
    (n as u64).min(last)
}
