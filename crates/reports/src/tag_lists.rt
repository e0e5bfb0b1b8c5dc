//! Changes of tags, as they are reported.

ghost use Rattle.std.specs.Prelude.{◌≡◌, ℕ, ◌+◌, ◌<◌, ◌≤◌, ◌++◌, ◌∷◌, [], false, length, Bool, List, OnOk};
ghost use Rattle.std.specs.List.{All};
ghost use Rattle.text_model.specs.Content.{flags};
ghost use Rattle.text_model.specs.TagBits.{slot_count};
ghost use Rattle.edit_ops.specs.Deletions.{AreApart};
ghost use Rattle.reports.specs.TagsTold.{some_change, AddsRuns, AreRising, TellsRuns, TellsSpan, TellsSpans};

use crate::keys::Key;
use edit_ops::{SlotRun, Span};
use std::alloc::{AllocError, Global};
use std::marker::Model;
use text_model::{TagSlot, TextStore};

/// A change of a tag: it is put on the characters from one offset to another, or taken off them.
#[derive(Drop)]
pub struct TagChange {
    pub key: Key,
    pub from: usize,
    pub to: usize,
    pub on: bool,
}

/// Changes of tags, each of the characters as those before it leave them. None is idle: a tag is put on characters that
/// don't have it, and taken off those that do. Contracts see a list.
#[derive(Drop)]
pub struct TagList {
    alloc: Global,
    changes: Vec<TagChange>,
}

impl Model for TagList {
    ghost use Rattle.std.specs.Prelude.{List};
    ghost use Rattle.std.specs.Coded.{codes};
    ghost use Rattle.reports.specs.declared.tag_lists.TagChange.{TagChange};

    ghost Value = { List TagChange };

    ghost coded = { Prim.hlevel codes };

    ghost view = { λ l. l.changes.items };
}

impl TagList {
    /// No changes. It takes no memory.
    pub fn new(alloc: Global) -> TagList
        ensures { result ≡ [] }
    {
        TagList {
            alloc,
            changes: Vec::new(alloc),
        }
    }

    pub fn as_slice(&self) -> &[TagChange]
        ensures { result.now ≡ self.now }
    {
        self.changes.as_slice()
    }

    /// Adds that a key is put on the characters from one offset to another, or taken off them.
    pub fn push(&mut self, key: &Key, from: usize, to: usize, on: bool) -> Result<(), AllocError>
        ensures { OnOk result
            (self.new ≡ self.old ++ record { key = key.now; from = from; to = to; on = on } ∷ []) }
    {
        let key = key.copy(self.alloc)?;
        self.changes.push(TagChange { key, from, to, on })?;
        Ok(())
    }

    /// Adds the same unless there are no characters between the offsets.
    fn push_some(&mut self, key: &Key, from: usize, to: usize, on: bool) -> Result<(), AllocError>
        ensures { OnOk result (self.new ≡ self.old ++ some_change key.now from to on) }
    {
        if from < to {
            self.push(key, from, to, on)?;
        }
        Ok(())
    }

    /// Adds that a key, known by a slot, is put on those of some runs that have the slot, or taken off them. Of runs
    /// that touch it adds one change.
    pub fn push_joined(
        &mut self,
        key: &Key,
        slot: TagSlot,
        runs: &[SlotRun],
        on: bool,
    ) -> Result<(), AllocError>
        requires { slot.0 < slot_count }
        ensures { OnOk result (AreRising 0 runs.now →
            TellsRuns ((slot.0, key.now) ∷ []) on runs.now self.old self.new) }
    {
        let mut from = 0;
        let mut to = 0;
        for run in runs {
            if run.slots.has(slot) {
                if to < run.from {
                    self.push_some(key, from, to, on)?;
                    from = run.from;
                }
                to = run.to;
            }
        }
        self.push_some(key, from, to, on)?;
        Ok(())
    }

    /// Adds that a key is put on the characters of a span, or taken off them, where they are otherwise by a store,
    /// which knows the key by a slot.
    pub fn push_unlike<S: TextStore>(
        &mut self,
        store: &S,
        slot: TagSlot,
        key: &Key,
        span: Span,
        on: bool,
    ) -> Result<(), AllocError>
        requires ordered { span.from ≤ span.to }
        requires within { span.to ≤ length (S.content store.now).cells }
        requires known { slot.0 < slot_count }
        ensures tells { OnOk result (TellsSpan key.now on (flags slot.0 (S.content store.now).cells) span.from span.to
            self.old self.new) }
        ensures runs { OnOk result (AddsRuns key.now span.from span.to self.old self.new) }
    {
        let mut at = span.from;
        while at < span.to {
            let end = store.next_change(at, slot).min(span.to);
            if store.has_tag(at, slot) != on {
                self.push(key, at, end, on)?;
            }
            at = end;
        }
        Ok(())
    }

    /// Adds the same of spans, of which the last comes first.
    pub fn push_spans<S: TextStore>(
        &mut self,
        store: &S,
        slot: TagSlot,
        key: &Key,
        spans: &[Span],
        on: bool,
    ) -> Result<(), AllocError>
        requires apart { AreApart (length (S.content store.now).cells + 1) spans.now }
        requires known { slot.0 < slot_count }
        ensures tells { OnOk result (TellsSpans key.now on (flags slot.0 (S.content store.now).cells) spans.now
            self.old self.new) }
        ensures runs { OnOk result (AddsRuns key.now 0 (length (S.content store.now).cells) self.old self.new) }
    {
        for span in spans {
            self.push_unlike(store, slot, key, *span, on)?;
        }
        Ok(())
    }

    /// Adds that a key that no character has is put on spans, of which the last comes first. Where it is taken off,
    /// nothing is to be reported.
    pub fn push_whole(&mut self, key: &Key, spans: &[Span], on: bool) -> Result<(), AllocError>
        ensures tells { OnOk result ((flags : List Bool) → AreApart (length flags + 1) spans.now →
            All (λ flag. flag ≡ false) flags → TellsSpans key.now on flags spans.now self.old self.new) }
        ensures runs { OnOk result ((len : ℕ) → AreApart (len + 1) spans.now →
            AddsRuns key.now 0 len self.old self.new) }
    {
        if !on {
            return Ok(());
        }
        for span in spans {
            self.push(key, span.from, span.to, true)?;
        }
        Ok(())
    }
}
