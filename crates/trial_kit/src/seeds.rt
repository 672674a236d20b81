// Numbers that look random, and are the same in each run.
ghost use Rattle.std.specs.Prelude.{◌≡◌, ◌≤◌, ◌-◌};
ghost use Rattle.trial_kit.specs.Seeds.{next_seed, drawn};

#[derive(Clone, Copy, Debug, PartialEq, Eq)]
pub struct Seed(pub u32);

impl Seed {
    // A number below k, out of the seed's upper half; 0 where k is 0.
    pub fn draw(&mut self, k: u16) -> u16
        ensures value { result ≡ drawn (next_seed self.old.0) k }
        ensures after { self.new.0 ≡ next_seed self.old.0 }
        ensures bound { result ≤ k - 1 }
    {
        self.0 = self.0.wrapping_mul(1664525).wrapping_add(1013904223);
        // Less than 65536, since 32 bits are divided by it.
        let upper = (self.0 / 65536) as u16;
        upper.checked_rem(k).unwrap_or(0)
    }
}
