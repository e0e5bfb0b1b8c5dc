//! How much a program lets its texts grow.

ghost use Rattle.std.specs.Prelude.{◌≡◌, ◌↔◌, IsSome, IfSome};
ghost use Rattle.text_model.specs.LimitTable.{AreLimits};

use crate::tag_set::TagSet;
use std::marker::Model;

/// Each tag has a slot, and each widget one for its `sel`.
const _: () = prove!(Limits::MOST_TAGS + Limits::MOST_WIDGETS <= TagSet::SLOTS);

/// How much a program lets its texts grow.
#[derive(Clone, Copy)]
pub struct Limits {
    chars: usize,
    tags: u16,
    marks: u16,
    widgets: u16,
    reads: u32,
}

impl Model for Limits {
    ghost use Rattle.text_model.specs.LimitTable.{LimitTable, AreLimits};

    ghost Value = { LimitTable };

    ghost view = { λ a. record {
      chars = a.chars;
      tags = a.tags;
      marks = a.marks;
      widgets = a.widgets;
      reads = a.reads;
    } };

    ghost invariant = { λ a. AreLimits (record {
      chars = a.chars;
      tags = a.tags;
      marks = a.marks;
      widgets = a.widgets;
      reads = a.reads;
    }) };

    ghost inverse = { λ v. record {
      chars = v.chars;
      tags = v.tags;
      marks = v.marks;
      widgets = v.widgets;
      reads = v.reads;
    } };
}

impl Limits {
    /// The greatest number of characters of a text, its last newline included.
    pub const MOST_CHARS: usize = 134_217_728;

    /// The greatest number of tags besides `sel`.
    pub const MOST_TAGS: u16 = 960;

    /// The greatest number of shared marks.
    pub const MOST_MARKS: u16 = 4_096;

    /// The greatest number of widgets.
    pub const MOST_WIDGETS: u16 = 64;

    /// Limits of these numbers: of characters (the last newline included), of tags besides `sel`, of shared marks, of
    /// widgets, and of reads of a script. `None` where there may be no character or a number is above its greatest;
    /// reads have no greatest number.
    pub fn new(chars: usize, tags: u16, marks: u16, widgets: u16, reads: u32) -> Option<Limits>
        ensures known { IsSome result
            ↔ AreLimits (record { chars = chars; tags = tags; marks = marks; widgets = widgets; reads = reads }) }
        ensures kept { IfSome result (λ limits. limits
            ≡ record { chars = chars; tags = tags; marks = marks; widgets = widgets; reads = reads }) }
    {
        let fits = 0 < chars
            && chars <= Limits::MOST_CHARS
            && tags <= Limits::MOST_TAGS
            && marks <= Limits::MOST_MARKS
            && widgets <= Limits::MOST_WIDGETS;
        if !fits {
            return None;
        }
        Some(Limits {
            chars,
            tags,
            marks,
            widgets,
            reads,
        })
    }

    /// How many characters a text may have.
    pub fn chars(&self) -> usize
        ensures value { result ≡ self.now.chars }
        ensures bounds { AreLimits self.now }
    {
        self.chars
    }

    /// How many tags besides `sel` a text may have.
    pub fn tags(&self) -> u16
        ensures value { result ≡ self.now.tags }
        ensures bounds { AreLimits self.now }
    {
        self.tags
    }

    /// How many shared marks a text may have.
    pub fn marks(&self) -> u16
        ensures value { result ≡ self.now.marks }
        ensures bounds { AreLimits self.now }
    {
        self.marks
    }

    /// How many widgets there may be.
    pub fn widgets(&self) -> u16
        ensures value { result ≡ self.now.widgets }
        ensures bounds { AreLimits self.now }
    {
        self.widgets
    }

    /// How many reads a script may take.
    pub fn reads(&self) -> u32
        ensures value { result ≡ self.now.reads }
        ensures bounds { AreLimits self.now }
    {
        self.reads
    }
}
