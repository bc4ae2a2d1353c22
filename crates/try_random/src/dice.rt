//! Random numbers, the same for the same seed.

ghost use Rattle.std.specs.Prelude.{◌<◌};

use rand_core::utils::NextWord;
use rand_pcg::Pcg32;

/// A generator of random numbers.
#[derive(Drop)]
pub struct Dice {
    generator: Pcg32,
}

impl Dice {
    /// The generator of a seed.
    pub fn new(seed: u64) -> Dice {
        Dice {
            generator: Pcg32::new(seed, 54),
        }
    }

    /// A number below a bound.
    pub fn below(&mut self, bound: u32) -> u32
        requires { 0 < bound }
        ensures { result < bound }
    {
        self.generator.next_word() % bound
    }

    /// Whether one of so many is drawn.
    pub fn is_one_of(&mut self, bound: u32) -> bool
        requires { 0 < bound }
    {
        self.below(bound) == 0
    }

    /// One of these; the other where there are none.
    pub fn pick<T: Copy>(&mut self, from: &[T], other: T) -> T {
        match u32::try_from(from.len()) {
            Ok(count) if count > 0 => from[self.below(count) as usize],
            _ => other,
        }
    }
}
