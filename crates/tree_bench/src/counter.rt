//! A counter of steps that can be read and reset.

use raw_nodes::{Steps, Ticks};

/// A count of steps that can be read.
#[derive(Drop)]
pub struct Counter {
    steps: Steps,
    /// How many there were; it may be set back.
    pub seen: usize,
}

impl Counter {
    pub fn new() -> Counter {
        Counter {
            steps: Steps::new(),
            seen: 0,
        }
    }
}

impl Ticks for Counter {
    ghost count = { λ c. c.steps.count };

    fn tick(&mut self) {
        self.steps.step();
        self.seen = self.seen.wrapping_add(1);
    }
}
