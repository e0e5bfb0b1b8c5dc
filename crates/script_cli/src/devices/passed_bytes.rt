//! The bytes that passed through a device, as data for contracts alone.

ghost use Rattle.std.specs.Prelude.{◌≡◌, [], ◌++◌, ℕ, List};

use std::marker::Model;

/// Bytes that passed through a device, which only contracts can see.
#[derive(Drop)]
pub struct PassedBytes {
    ghost bytes: { List ℕ },
}

impl Model for PassedBytes {
    ghost use base.Fml.{ftrue};

    ghost also_owns = { λ _. ftrue };
}

impl PassedBytes {
    pub fn new() -> Self
        ensures { result.bytes ≡ [] }
    {
        PassedBytes {}
    }

    pub fn step(&mut self, piece: &[u8])
        ensures { self.new.bytes ≡ self.old.bytes ++ piece.now }
    {}
}
