//! Numbers that look random and are the same at every run.

ghost use Rattle.std.specs.Prelude.{◌<◌};

// No Iterator: the rolls have no end, so each use of one would unwrap an Option that is never None.
#[derive(Drop)]
pub struct Dice {
    state: u64,
}

impl Dice {
    pub fn new(seed: u64) -> Dice {
        Dice { state: seed }
    }

    // 32 bits more.
    fn roll(&mut self) -> u64 {
        self.state = self
            .state
            .wrapping_mul(6_364_136_223_846_793_005)
            .wrapping_add(1_442_695_040_888_963_407);
        self.state >> 32
    }

    // A number from 0 to n - 1, or 0 where n is 0.
    pub fn below(&mut self, n: u8) -> u8
        ensures { 0 < n → result < n }
    {
        let rolled = self.roll();
        if n == 0 {
            return 0;
        }
        (rolled % n as u64) as u8
    }

    // A set of minutes up to 63, of each with an even chance.
    pub fn set(&mut self) -> u64 {
        let high = self.roll();
        let low = self.roll();
        (high << 32) | low
    }
}
