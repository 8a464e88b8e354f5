//! Numbers below a limit, drawn one after another.

ghost use Rattle.std.specs.Prelude.{◌<◌};

use rand_core::utils::NextWord;
use rand_pcg::Lcg64Xsh32;

/// The words of an improvement.
#[derive(Drop)]
pub struct Words {
    generator: Lcg64Xsh32,
}

impl Words {
    /// The words of a seed, in stream 3.
    pub fn new(seed: u64) -> Words {
        Words {
            generator: Lcg64Xsh32::new(seed, 3),
        }
    }

    /// A number below the limit.
    pub fn below(&mut self, limit: u16) -> u16
        requires { 0 < limit }
        ensures { result < limit }
    {
        (self.generator.next_word() % u32::from(limit)) as u16
    }
}
