//! Numbers that look drawn by lot, the same in every run.

/// Where the row of numbers has come to.
#[derive(Clone, Copy)]
pub struct Dice {
    state: u32,
}

impl Dice {
    /// The row from its start.
    pub fn new() -> Dice {
        Dice { state: 1 }
    }

    /// The next number, of 24 bits.
    pub fn roll(&mut self) -> u32 {
        self.state = self
            .state
            .wrapping_mul(1_664_525)
            .wrapping_add(1_013_904_223);
        self.state >> 8
    }

    /// The next number below 256: the highest byte, since the lower ones repeat soon.
    pub fn byte(&mut self) -> u16 {
        ((self.roll() >> 16) % 256) as u16
    }
}

/// A sum in which the order of the answers counts.
pub fn mixed(sum: u64, answer: u64) -> u64 {
    sum.wrapping_mul(31).wrapping_add(answer)
}
