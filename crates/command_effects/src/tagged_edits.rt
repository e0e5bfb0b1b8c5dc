//! Plans of insertions and replacements with tag lists, and tags added to ranges; new tags are created first.

ghost use Rattle.std.specs.Prelude.{◌≡◌, ◌≢◌, ◌+◌, ◌<◌, ◌≤◌, ◌∷◌, [], true, false, nat_lt, min, length, chars, map};
ghost use Rattle.std.specs.Prelude.{None, Some, option_map, IfOk, IfErr, OnOk, OnErr};
ghost use Rattle.std.specs.Char.{IsScalar};
ghost use Rattle.std.specs.List.{All};
ghost use Rattle.edit_ops.specs.Anchors.{AnchorsStand};
ghost use Rattle.edit_ops.specs.Deltas.{KnowsDelta};
ghost use Rattle.edit_ops.specs.Inserted.{replacement};
ghost use Rattle.edit_ops.specs.Insertions.{inserted_texts, pieces_text};
ghost use Rattle.edit_ops.specs.Plans.{planned, HasRoomFor};
ghost use Rattle.edit_ops.specs.Removals.{replaced};
ghost use Rattle.edit_ops.specs.States.{log_of, state_in, IsUnchanged};
ghost use Rattle.edit_ops.specs.Tagging.{SpanFits, tagged};
ghost use Rattle.edit_ops.specs.Told.{insertion};
ghost use Rattle.index_grammar.specs.Names.{known_tags};
ghost use Rattle.tag_table.specs.Tags.{AreTags, names_of};
ghost use Rattle.text_model.specs.LimitTable.{AreLimits};
ghost use Rattle.text_model.specs.declared.limits.TheConstants.Limits.{MOST_TAGS, MOST_WIDGETS};
ghost use Rattle.command_effects.specs.declared.answers.Fault.TheVariants.{Memory, TooManyTags};
ghost use Rattle.command_effects.specs.Edits.{excess, length_replaced};
ghost use Rattle.command_effects.specs.Lists.{with_name, with_names, all_names, total};
ghost use Rattle.command_effects.specs.Tagging.{IsFront, piece_of};

use crate::answers::Fault;
use crate::edits::set_slot;
use crate::lists::Pair;
use crate::tagging::{make_listed_pieces, make_tag, own_slot};
use edit_ops::{EditRules, EditedText, Plan, SlottedText, Span, Target, plan_insert, plan_replace};
use tag_table::TagTable;
use text_model::{TagSlot, TextStore};
use undo_stack::EditKind;

/// Makes the tags of pairs that are new, and returns the texts with the slots of their lists. If that is refused, new
/// tags may be left at the end of the table.
fn make_pieces(
    rules: &EditRules<'_>,
    tags: &mut TagTable,
    own: TagSlot,
    pairs: Vec<Pair>,
) -> Result<Vec<SlottedText>, Fault>
    requires roomy { tags.old.limit ≡ MOST_TAGS }
    requires known { own.0 < MOST_WIDGETS }
    ensures bounds { AreLimits rules.now.limits.now }
    ensures front { IsFront tags.old tags.new }
    ensures sound { OnOk result (AreTags tags.new) }
    ensures made { OnOk result (names_of tags.new.tags ≡ with_names (names_of tags.old.tags) (all_names pairs.items)) }
    ensures pieces { IfOk result (λ pieces. pieces.items ≡ map (piece_of tags.new.tags own.0) pairs.items) }
    ensures few { OnOk result (nat_lt (rules.now.limits.now.tags + 1)
        (length (with_names (names_of tags.old.tags) (all_names pairs.items))) ≡ false) }
    ensures fault { IfErr result (λ fault. fault ≢ Memory → (fault ≡ TooManyTags)
        × (nat_lt (rules.now.limits.now.tags + 1)
        (length (with_names (names_of tags.old.tags) (all_names pairs.items))) ≡ true)) }
{
    let most = rules.limits.tags() as usize + 1;
    let pieces = make_listed_pieces(rules.alloc, tags, own, pairs)?;
    if tags.len() > most {
        return Err(Fault::TooManyTags);
    }
    Ok(pieces)
}

/// Makes the tags of pairs that are new, and a plan that inserts their texts before the character at an offset, each
/// after the one before it. Where that is refused, there may be new tags after the others.
pub fn plan_pairs<S: TextStore>(
    rules: &EditRules<'_>,
    tags: &mut TagTable,
    own: TagSlot,
    text: &mut EditedText<S>,
    at: usize,
    pairs: Vec<Pair>,
) -> Result<Plan<S>, Fault>
    requires within { at < length (S.content text.old.store).cells }
    requires stand { All (AnchorsStand (length (S.content text.old.store).cells)) text.old.anchors.items }
    requires roomy { tags.old.limit ≡ MOST_TAGS }
    requires known { own.0 < MOST_WIDGETS }
    ensures bounds { AreLimits rules.now.limits.now }
    ensures front { IsFront tags.old tags.new }
    ensures sound { OnOk result (AreTags tags.new) }
    ensures scalars { OnOk result (All (λ pair. All IsScalar pair.text) pairs.items) }
    ensures made { OnOk result (names_of tags.new.tags ≡ with_names (names_of tags.old.tags) (all_names pairs.items)) }
    ensures same { IsUnchanged S.content text.old text.new }
    ensures ready { IfOk result (λ plan. S.ready text.new.store plan.prepared) }
    ensures room { IfOk result (λ plan. HasRoomFor plan.effects text.new.history) }
    ensures outcome { IfOk result (λ plan.
        planned plan.effects (S.outcome text.new.store plan.prepared) text.old.anchors.items (log_of text.old.history)
        ≡ inserted_texts rules.now.recording EditKind.Insert at (map (piece_of tags.new.tags own.0) pairs.items)
        (state_in S.content text.old)) }
    ensures delta { IfOk result (λ plan. KnowsDelta rules.now.follows
        (insertion at (pieces_text (map (piece_of tags.new.tags own.0) pairs.items)) ∷ [])
        (S.content text.old.store).cells (S.outcome text.new.store plan.prepared).cells plan.delta) }
    ensures fits { OnOk result (excess rules.now.limits.now
        (length (with_names (names_of tags.old.tags) (all_names pairs.items)))
        (length (S.content text.old.store).cells + total pairs.items) ≡ None) }
    ensures fault { IfErr result (λ fault. fault ≢ Memory →
        excess rules.now.limits.now (length (with_names (names_of tags.old.tags) (all_names pairs.items)))
        (length (S.content text.old.store).cells + total pairs.items) ≡ Some fault) }
{
    let pieces = make_pieces(rules, tags, own, pairs)?;
    Ok(plan_insert(rules, text, at, pieces)?)
}

/// Makes the tags of pairs that are new, and a plan that inserts their texts in place of the characters that a target
/// names. Where that is refused, there may be new tags after the others.
pub fn plan_replacement<S: TextStore>(
    rules: &EditRules<'_>,
    tags: &mut TagTable,
    own: TagSlot,
    text: &mut EditedText<S>,
    target: Target,
    pairs: Vec<Pair>,
) -> Result<Plan<S>, Fault>
    requires within { target.last < length (S.content text.old.store).cells }
    requires ordered { target.from ≤ target.to }
    requires stand { All (AnchorsStand (length (S.content text.old.store).cells)) text.old.anchors.items }
    requires roomy { tags.old.limit ≡ MOST_TAGS }
    requires known { own.0 < MOST_WIDGETS }
    ensures bounds { AreLimits rules.now.limits.now }
    ensures front { IsFront tags.old tags.new }
    ensures sound { OnOk result (AreTags tags.new) }
    ensures scalars { OnOk result (All (λ pair. All IsScalar pair.text) pairs.items) }
    ensures made { OnOk result (names_of tags.new.tags ≡ with_names (names_of tags.old.tags) (all_names pairs.items)) }
    ensures same { IsUnchanged S.content text.old text.new }
    ensures ready { IfOk result (λ plan. S.ready text.new.store plan.prepared) }
    ensures room { IfOk result (λ plan. HasRoomFor plan.effects text.new.history) }
    ensures outcome { IfOk result (λ plan.
        planned plan.effects (S.outcome text.new.store plan.prepared) text.old.anchors.items (log_of text.old.history)
        ≡ replaced rules.now.recording target.mark.0 target.last target.from target.to
        (map (piece_of tags.new.tags own.0) pairs.items) (state_in S.content text.old)) }
    ensures delta { IfOk result (λ plan. KnowsDelta rules.now.follows
        (replacement (S.content text.old.store).cells (min target.from target.last) (min target.to target.last)
        (pieces_text (map (piece_of tags.new.tags own.0) pairs.items)))
        (S.content text.old.store).cells (S.outcome text.new.store plan.prepared).cells plan.delta) }
    ensures fits { OnOk result (excess rules.now.limits.now
        (length (with_names (names_of tags.old.tags) (all_names pairs.items)))
        (length_replaced (length (S.content text.old.store).cells) target.last target.from target.to
        + total pairs.items) ≡ None) }
    ensures fault { IfErr result (λ fault. fault ≢ Memory →
        excess rules.now.limits.now (length (with_names (names_of tags.old.tags) (all_names pairs.items)))
        (length_replaced (length (S.content text.old.store).cells) target.last target.from target.to
        + total pairs.items) ≡ Some fault) }
{
    let pieces = make_pieces(rules, tags, own, pairs)?;
    Ok(plan_replace(rules, text, target, pieces)?)
}

/// Makes a tag if it is new, and sets it on spans. If that is refused, the new tag may be left at the end of the
/// table.
pub fn tag_spans<S: TextStore>(
    rules: &EditRules<'_>,
    tags: &mut TagTable,
    own: TagSlot,
    text: &mut EditedText<S>,
    name: &str,
    spans: &[Span],
) -> Result<(), Fault>
    requires spans { All (SpanFits (length (S.content text.old.store).cells)) spans.now }
    requires roomy { tags.old.limit ≡ MOST_TAGS }
    requires known { own.0 < MOST_WIDGETS }
    ensures front { IsFront tags.old tags.new }
    ensures sound { OnOk result (AreTags tags.new) }
    ensures made { OnOk result (names_of tags.new.tags ≡ with_name (names_of tags.old.tags) (chars name.now)) }
    ensures ok { OnOk result (option_map (λ slot. tagged slot true spans.now (S.content text.old.store))
        (known_tags tags.new.tags own.0 (chars name.now))
        ≡ Some (S.content text.new.store)) }
    ensures err { OnErr result (S.content text.new.store ≡ S.content text.old.store) }
    ensures log { log_of text.new.history ≡ log_of text.old.history }
    ensures anchors { text.new.anchors.items ≡ text.old.anchors.items }
    ensures few { OnOk result (length (with_name (names_of tags.old.tags) (chars name.now))
        ≤ rules.now.limits.now.tags + 1) }
    ensures fault { IfErr result (λ fault. fault ≢ Memory → (fault ≡ TooManyTags) × (rules.now.limits.now.tags + 1
        < length (with_name (names_of tags.old.tags) (chars name.now)))) }
{
    let most = rules.limits.tags() as usize + 1;
    let slot = make_tag(rules.alloc, tags, name)?;
    if tags.len() > most {
        return Err(Fault::TooManyTags);
    }
    set_slot(rules.alloc, text, spans, own_slot(slot, own), true)
}
