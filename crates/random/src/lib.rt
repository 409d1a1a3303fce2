// Numbers that look random and are the same in each run, for programs that try the engine.
#![tactic(auto)]

ghost use Rattle.std.specs.Prelude.{◌≡◌, ℕ, ◌+◌, ◌*◌, ◌/◌, ◌%◌, ◌^◌, ◌<◌};

#[derive(Drop)]
pub struct Random {
    pub state: u64,
}

impl Random {
    // A number below n, or 0 where n is 0, by the next state of a linear congruential generator.
    pub fn below(&mut self, n: u16) -> u16
        ensures state { self.new.state ≡ (self.old.state * 6364136223846793005 % 2 ^ 64 + 1442695040888963407) % 2 ^ 64 }
        ensures value { 0 < n → result ≡ self.new.state / 2 ^ 40 % n }
        ensures bound { 0 < n → result < n }
        ensures none { n ≡ 0 → result ≡ 0 }
    {
        self.state = self
            .state
            .wrapping_mul(6_364_136_223_846_793_005)
            .wrapping_add(1_442_695_040_888_963_407);
        if n == 0 {
            return 0;
        }
        ((self.state >> 40) % u64::from(n)) as u16
    }
}
