//! Counts the actions made, reverted and repeated, from which it is known whether a text is modified.

ghost use Rattle.std.specs.Prelude.{◌≡◌};
ghost use Rattle.undo_stack.specs.Modified.{unmodified, is_modified, counted_up, counted_down, counted_new, set_to};
ghost use Rattle.undo_stack.specs.Modified.{times};

use std::marker::Model;

/// How many actions were made more than reverted, and whether the answer is fixed.
#[derive(Drop)]
pub struct ModifiedCount {
    count: i64,
    fixed: bool,
}

impl Model for ModifiedCount {
    ghost use Rattle.undo_stack.specs.Modified.{Modified};

    ghost Value = { Modified };

    ghost view = { λ m. record { count = m.count; fixed = m.fixed } };
}

impl ModifiedCount {
    /// Nothing was done.
    pub fn new() -> Self
        ensures { result ≡ unmodified }
    {
        ModifiedCount {
            count: 0,
            fixed: false,
        }
    }

    /// Whether something was done that isn't reverted.
    pub fn is_modified(&self) -> bool
        ensures { result ≡ is_modified self.now }
    {
        self.fixed || self.count != 0
    }

    /// Fixes that something was done, or begins again.
    pub fn set(&mut self, modified: bool)
        ensures { self.new ≡ set_to modified self.old }
    {
        if modified {
            self.fixed = true;
        } else {
            self.count = 0;
            self.fixed = false;
        }
    }

    fn count_up(&mut self)
        ensures { self.new ≡ counted_up self.old }
    {
        if self.count < i64::MAX {
            self.count += 1;
        } else {
            self.fixed = true;
        }
    }

    fn count_down(&mut self)
        ensures { self.new ≡ counted_down self.old }
    {
        if i64::MIN < self.count {
            self.count -= 1;
        } else {
            self.fixed = true;
        }
    }

    /// Counts a new action.
    pub fn make(&mut self)
        ensures { self.new ≡ counted_new self.old }
    {
        if self.count < 0 {
            self.fixed = true;
        } else {
            self.count_up();
        }
    }

    /// Counts so many actions that are repeated.
    pub fn repeat(&mut self, actions: usize)
        ensures { self.new ≡ times actions counted_up self.old }
    {
        for _ in 0..actions {
            self.count_up();
        }
    }

    /// Counts so many actions that are reverted.
    pub fn revert(&mut self, actions: usize)
        ensures { self.new ≡ times actions counted_down self.old }
    {
        for _ in 0..actions {
            self.count_down();
        }
    }
}
