ghost use Rattle.std.specs.Prelude.{◌<◌};

use sf_field::Modulus;

/// Numbers by a linear congruential generator, the same in each run.
#[derive(Drop)]
pub struct Generator {
    state: u32,
}

impl Generator {
    /// The generator that begins with this state.
    pub fn from_seed(seed: u32) -> Generator {
        Generator { state: seed }
    }

    /// The next number, below 32,768.
    pub fn next_number(&mut self) -> u32
        ensures below { result < 32768 }
    {
        let state = (self.state as u64 * 1103515245 + 12345) % 2147483648;
        self.state = state as u32;
        self.state / 65536
    }

    /// A residue other than 0.
    pub fn next_coefficient(&mut self, modulus: Modulus) -> u32
        ensures nonzero { 0 < result }
        ensures residue { result < modulus }
    {
        let p = modulus.value();
        self.next_number() % (p - 1) + 1
    }
}
