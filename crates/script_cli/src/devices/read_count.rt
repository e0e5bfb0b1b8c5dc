//! A count of reads, as data for contracts alone.

ghost use Rattle.std.specs.Prelude.{◌≡◌, ◌+◌, ℕ};

use std::marker::Model;

/// A number of reads, which only contracts can see.
#[derive(Drop)]
pub struct ReadCount {
    ghost count: { ℕ },
}

impl Model for ReadCount {
    ghost use base.Fml.{ftrue};

    ghost also_owns = { λ _. ftrue };
}

impl ReadCount {
    pub fn new() -> Self
        ensures { result.count ≡ 0 }
    {
        ReadCount {}
    }

    pub fn step(&mut self)
        ensures { self.new.count ≡ self.old.count + 1 }
    {}
}
