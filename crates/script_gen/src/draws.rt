// A linear congruential generator: its numbers are those that the C standard shows as an example of `rand`.
ghost use Rattle.std.specs.Prelude.{◌≡◌, ◌≤◌, ◌<◌};
ghost use Rattle.script_gen.specs.Draws.{next_number, drawn, mix_after, after_mix};
ghost use Rattle.job_base.specs.declared.limits.TheConstants.{MOST_SEED};

use crate::mix::Mix;

const MULTIPLIER: u64 = 1_103_515_245;

const INCREMENT: u64 = 12_345;

// One more than the greatest number, which is job_base's `MOST_SEED`.
const MODULUS: u64 = 2_147_483_648;

// The quotient by this leaves out the lowest bits, which repeat soon.
const LOW_BITS: u32 = 65_536;

/// Numbers that look random.
#[derive(Drop)]
pub(crate) struct Draws {
    pub(crate) number: u32,
    ghost below: { number ≤ MOST_SEED },
}

impl Draws {
    pub(crate) fn from(number: u32) -> Draws
        requires { number ≤ MOST_SEED }
        ensures { result.number ≡ number }
    {
        Draws { number }
    }

    // A number below m.
    fn draw(&mut self, m: u32) -> u32
        requires { 1 ≤ m }
        ensures number { self.new.number ≡ next_number self.old.number }
        ensures drawn { result ≡ drawn self.new.number m }
        ensures below { result < m }
    {
        let next = (u64::from(self.number) * MULTIPLIER + INCREMENT) % MODULUS;
        self.number = next as u32;
        self.number / LOW_BITS % m
    }

    /// The next mix.
    pub(crate) fn mix(&mut self) -> Mix
        ensures number { self.new.number ≡ after_mix self.old.number }
        ensures mix { result ≡ mix_after self.old.number }
    {
        let read = self.draw(8);
        let apart = self.draw(7);
        let factor = self.draw(9) + 1;
        let batch = self.draw(128) + 1;
        Mix {
            read,
            written: (read + 1 + apart) % 8,
            factor,
            batch,
        }
    }
}
