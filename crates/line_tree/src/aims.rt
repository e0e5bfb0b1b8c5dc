//! What a search in the tree looks for, a line or a character, and what it adds up on the way.

ghost use Rattle.std.specs.Prelude.{◌≡◌, ℕ, ◌+◌, ◌≤◌, IfSome};
ghost use Rattle.toggle_sums.specs.Counts.{Count};
ghost use Rattle.raw_nodes.specs.Names.{IsName, entry};
ghost use Rattle.line_tree.specs.Aims.{AddsUp, AlwaysFits, CharactersFit, LinesFit, SumFits, characters-add};
ghost use Rattle.line_tree.specs.Aims.{characters_behind, lines-add, lines_behind, nothing-adds, nothing_behind};
ghost use Rattle.line_tree.specs.Aims.{slot-adds, slot_behind, slots-add, slots_behind, sum-adds, sum_behind};

use crate::slot_before::SlotBefore;
use raw_nodes::{NodePtr, NodeStore, Ticks};
use text_model::{TagSet, WORDS};
use toggle_sums::{Summary, Sums};

/// What stands before a place on the way down to it, and by what it is looked for: among lines, or characters.
pub trait Aim {
    /// What is read of a node.
    type Size: Copy;

    ghost sized: { Count → Self.Size };

    /// How many there are of what the place is counted by.
    ghost wide: { Count → ℕ };

    /// What stands before a place so much further on.
    ghost behind: { Self → Count → Self };

    /// Whether that can be counted.
    ghost fits: { Self → Count → Type 0 };

    /// How many steps it takes at most to pass a node that was read.
    ghost steps: { ℕ };

    fn read<C: Ticks>(store: &NodeStore<C>, node: NodePtr, ticks: &mut C) -> Self::Size
        requires { IsName store.now node }
        ensures value { IfSome (entry store.now node) (λ r. result ≡ sized r.sum) }
        ensures tick { C.count ticks.new ≡ C.count ticks.old + 1 };

    fn width(size: &Self::Size) -> usize
        ensures { (s : Count) → size.now ≡ sized s → result ≡ wide s };

    /// Goes on from a node's beginning to its end.
    fn pass<C: Ticks>(
        &mut self,
        store: &NodeStore<C>,
        node: NodePtr,
        size: &Self::Size,
        ticks: &mut C,
    )
        requires named { IsName store.now node }
        requires size { IfSome (entry store.now node) (λ r. size.now ≡ sized r.sum) }
        requires fits { IfSome (entry store.now node) (λ r. fits self.old r.sum) }
        ensures value { IfSome (entry store.now node) (λ r. self.new ≡ behind self.old r.sum) }
        ensures ticks { C.count ticks.new ≤ C.count ticks.old + steps };

    ghost adds_up: { AddsUp wide behind fits };
}

/// The same where it can go back from the end, too.
pub trait AimBack: Aim {
    /// Goes back from a node's end to its beginning.
    fn go_back<C: Ticks>(
        &mut self,
        store: &NodeStore<C>,
        node: NodePtr,
        size: &Self::Size,
        ticks: &mut C,
    )
        requires named { IsName store.now node }
        requires size { IfSome (entry store.now node) (λ r. size.now ≡ Self.sized r.sum) }
        requires before { (a : Self) × IfSome (entry store.now node) (λ r. self.old ≡ Self.behind a r.sum) }
        ensures value { (a : Self) → IfSome (entry store.now node) (λ r. self.old ≡ Self.behind a r.sum)
            → self.new ≡ a }
        ensures ticks { C.count ticks.new ≤ C.count ticks.old + Self.steps };
}

/// A line is looked for, and nothing is added up.
#[derive(Clone, Copy)]
pub struct NothingBefore;

impl Aim for NothingBefore {
    type Size = usize;

    ghost sized = { λ s. s.lines };

    ghost wide = { λ s. s.lines };

    ghost behind = { nothing_behind };

    ghost fits = { AlwaysFits };

    ghost steps = { 0 };

    ghost adds_up = { nothing-adds };

    #[inline(always)]
    fn read<C: Ticks>(store: &NodeStore<C>, node: NodePtr, ticks: &mut C) -> usize {
        store.lines(node, ticks)
    }

    #[inline(always)]
    fn width(size: &usize) -> usize {
        *size
    }

    #[inline(always)]
    fn pass<C: Ticks>(
        &mut self,
        _store: &NodeStore<C>,
        _node: NodePtr,
        _size: &usize,
        _ticks: &mut C,
    ) {}
}

impl AimBack for NothingBefore {
    #[inline(always)]
    fn go_back<C: Ticks>(
        &mut self,
        _store: &NodeStore<C>,
        _node: NodePtr,
        _size: &usize,
        _ticks: &mut C,
    ) {}
}

/// A character is looked for, and the lines before it are counted.
#[derive(Clone, Copy)]
pub struct LinesBefore {
    pub lines: usize,
}

impl Aim for LinesBefore {
    type Size = (usize, usize);

    ghost sized = { λ s. (s.lines, s.characters) };

    ghost wide = { λ s. s.characters };

    ghost behind = { lines_behind };

    ghost fits = { LinesFit };

    ghost steps = { 0 };

    ghost adds_up = { lines-add };

    #[inline(always)]
    fn read<C: Ticks>(store: &NodeStore<C>, node: NodePtr, ticks: &mut C) -> (usize, usize) {
        store.size(node, ticks)
    }

    #[inline(always)]
    fn width(size: &(usize, usize)) -> usize {
        size.1
    }

    #[inline(always)]
    fn pass<C: Ticks>(
        &mut self,
        _store: &NodeStore<C>,
        _node: NodePtr,
        size: &(usize, usize),
        _ticks: &mut C,
    ) {
        self.lines += size.0;
    }
}

impl AimBack for LinesBefore {
    #[inline(always)]
    fn go_back<C: Ticks>(
        &mut self,
        _store: &NodeStore<C>,
        _node: NodePtr,
        size: &(usize, usize),
        _ticks: &mut C,
    ) {
        self.lines -= size.0;
    }
}

/// A line is looked for, and the characters before it are counted.
#[derive(Clone, Copy)]
pub struct CharactersBefore {
    pub characters: usize,
}

impl Aim for CharactersBefore {
    type Size = (usize, usize);

    ghost sized = { λ s. (s.lines, s.characters) };

    ghost wide = { λ s. s.lines };

    ghost behind = { characters_behind };

    ghost fits = { CharactersFit };

    ghost steps = { 0 };

    ghost adds_up = { characters-add };

    #[inline(always)]
    fn read<C: Ticks>(store: &NodeStore<C>, node: NodePtr, ticks: &mut C) -> (usize, usize) {
        store.size(node, ticks)
    }

    #[inline(always)]
    fn width(size: &(usize, usize)) -> usize {
        size.0
    }

    #[inline(always)]
    fn pass<C: Ticks>(
        &mut self,
        _store: &NodeStore<C>,
        _node: NodePtr,
        size: &(usize, usize),
        _ticks: &mut C,
    ) {
        self.characters += size.1;
    }
}

impl AimBack for CharactersBefore {
    #[inline(always)]
    fn go_back<C: Ticks>(
        &mut self,
        _store: &NodeStore<C>,
        _node: NodePtr,
        size: &(usize, usize),
        _ticks: &mut C,
    ) {
        self.characters -= size.1;
    }
}

/// A line is looked for, with the slots that are toggled before it an odd number of times.
#[derive(Clone, Copy)]
pub struct SlotsBefore {
    pub slots: TagSet,
}

impl Aim for SlotsBefore {
    type Size = usize;

    ghost sized = { λ s. s.lines };

    ghost wide = { λ s. s.lines };

    ghost behind = { slots_behind };

    ghost fits = { AlwaysFits };

    ghost steps = { 1 };

    ghost adds_up = { slots-add };

    #[inline(always)]
    fn read<C: Ticks>(store: &NodeStore<C>, node: NodePtr, ticks: &mut C) -> usize {
        store.lines(node, ticks)
    }

    #[inline(always)]
    fn width(size: &usize) -> usize {
        *size
    }

    #[inline(always)]
    fn pass<C: Ticks>(
        &mut self,
        store: &NodeStore<C>,
        node: NodePtr,
        _size: &usize,
        ticks: &mut C,
    ) {
        store.turn_odd_slots(node, &mut self.slots, ticks);
    }
}

impl AimBack for SlotsBefore {
    #[inline(always)]
    fn go_back<C: Ticks>(
        &mut self,
        store: &NodeStore<C>,
        node: NodePtr,
        _size: &usize,
        ticks: &mut C,
    ) {
        store.turn_odd_slots(node, &mut self.slots, ticks);
    }
}

impl Aim for SlotBefore {
    type Size = usize;

    ghost sized = { λ s. s.lines };

    ghost wide = { λ s. s.lines };

    ghost behind = { slot_behind };

    ghost fits = { AlwaysFits };

    ghost steps = { 1 };

    ghost adds_up = { slot-adds };

    #[inline(always)]
    fn read<C: Ticks>(store: &NodeStore<C>, node: NodePtr, ticks: &mut C) -> usize {
        store.lines(node, ticks)
    }

    #[inline(always)]
    fn width(size: &usize) -> usize {
        *size
    }

    #[inline(always)]
    fn pass<C: Ticks>(
        &mut self,
        store: &NodeStore<C>,
        node: NodePtr,
        _size: &usize,
        ticks: &mut C,
    ) {
        self.is_odd = self.is_odd != store.is_odd(node, self.slot, ticks);
    }
}

impl AimBack for SlotBefore {
    #[inline(always)]
    fn go_back<C: Ticks>(
        &mut self,
        store: &NodeStore<C>,
        node: NodePtr,
        _size: &usize,
        ticks: &mut C,
    ) {
        self.is_odd = self.is_odd != store.is_odd(node, self.slot, ticks);
    }
}

/// A line is looked for, and all that is counted of the lines before it. There's no way back.
#[derive(Clone, Copy)]
pub struct SumBefore {
    pub sum: Sums<WORDS>,
}

impl Aim for SumBefore {
    type Size = Sums<WORDS>;

    ghost sized = { λ s. s };

    ghost wide = { λ s. s.lines };

    ghost behind = { sum_behind };

    ghost fits = { SumFits };

    ghost steps = { 0 };

    ghost adds_up = { sum-adds };

    #[inline(always)]
    fn read<C: Ticks>(store: &NodeStore<C>, node: NodePtr, ticks: &mut C) -> Sums<WORDS> {
        store.sum(node, ticks)
    }

    #[inline(always)]
    fn width(size: &Sums<WORDS>) -> usize {
        size.lines()
    }

    #[inline(always)]
    fn pass<C: Ticks>(
        &mut self,
        _store: &NodeStore<C>,
        _node: NodePtr,
        size: &Sums<WORDS>,
        _ticks: &mut C,
    ) {
        self.sum = self.sum.plus(size);
    }
}
