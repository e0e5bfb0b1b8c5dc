//! Reports of commands that edit the text, and plans that are committed with their reports.

ghost use Rattle.std.specs.Prelude.{◌≡◌, ◌≢◌, ◌≤◌, ◌<◌, ◌^◌, true, length, take, [], List, IfOk, IfErr, IfSome, OnOk};
ghost use Rattle.std.specs.Prelude.{box_value, IsOk, OnErr, Err, Some};
ghost use Rattle.tag_table.specs.Tags.{sel, slot_of};
ghost use Rattle.command_effects.specs.declared.answers.Fault.TheVariants.{Memory};
ghost use Rattle.edit_ops.specs.Plans.{planned, HasRoomFor};
ghost use Rattle.edit_ops.specs.States.{log_of, state_in};
ghost use Rattle.tag_table.specs.Tags.{AreTags};
ghost use Rattle.text_model.specs.declared.cells.Cell.{Cell};
ghost use Rattle.text_model.specs.declared.limits.TheConstants.Limits.{MOST_WIDGETS};
ghost use Rattle.edit_ops.specs.Deltas.{KnowsDelta};
ghost use Rattle.reports.specs.Slots.{AreSeats};
ghost use Rattle.reports.specs.Keys.{key_pairs};
ghost use Rattle.reports.specs.Cells.{keyed};
ghost use Rattle.undo_stack.specs.declared.actions.Action.{Action};
ghost use Rattle.edit_ops.specs.Told.{AreHunks};
ghost use Rattle.reports.specs.Told.{TellsCells};

use crate::tag_lists::TagList;
use crate::tag_runs::push_runs;
use command_effects::Fault;
use edit_ops::{ChangeList, Delta, EditedText, Plan, commit, tell};
use name_list::NameList;
use std::alloc::{AllocError, Global};
use tag_table::TagTable;
use text_model::TextStore;

/// The report of an edit: changes of the text, and then changes of tags.
#[derive(Drop)]
pub struct EditTold {
    pub changes: ChangeList,
    pub tags: TagList,
}

impl EditTold {
    /// An empty report. It allocates nothing.
    pub fn nothing(alloc: Global) -> EditTold
        ensures { result ≡ record { changes = []; tags = [] } }
    {
        EditTold::of_tags(alloc, TagList::new(alloc))
    }

    /// Changes of tags alone.
    pub fn of_tags(alloc: Global, tags: TagList) -> EditTold
        ensures { result ≡ record { changes = []; tags = tags } }
    {
        EditTold {
            changes: ChangeList::new(alloc),
            tags,
        }
    }
}

/// Returns the report of a delta of a store's text, by the keys that the seats and the tags give its slots; an empty
/// one if there is none. It is made before the plan of the delta is carried out: where an allocation fails, all is as
/// it was.
fn report<S: TextStore>(
    alloc: Global,
    seats: &NameList,
    tags: &TagTable,
    store: &S,
    delta: Option<Box<Delta>>,
) -> Result<EditTold, AllocError>
    requires limit { seats.now.limit ≡ MOST_WIDGETS }
    requires seated { AreSeats seats.now.entries }
    requires sound { AreTags tags.now }
    requires short { length (S.content store.now).cells ≤ 2 ^ 60 }
    requires stand { IfSome delta
        (λ delta. AreHunks 0 (length (S.content store.now).cells) (box_value delta).hunks.items) }
    ensures { IfOk result (λ told. (actions : List Action) (cells : List Cell) →
        KnowsDelta true actions (S.content store.now).cells cells delta →
        let pairs = key_pairs seats.now.entries tags.now.tags in
        TellsCells actions (keyed pairs (S.content store.now).cells) (keyed pairs cells) told) }
{
    let Some(delta) = delta else {
        return Ok(EditTold::nothing(alloc));
    };
    let Delta {
        hunks,
        lost,
        gained,
    } = Box::into_inner(delta);
    let mut list = TagList::new(alloc);
    if let Some(run) = lost {
        let runs = [Box::into_inner(run)];
        push_runs(&mut list, alloc, seats, tags, &runs, false)?;
    }
    push_runs(&mut list, alloc, seats, tags, &gained, true)?;
    let changes = tell(alloc, store, hunks)?;
    Ok(EditTold {
        changes,
        tags: list,
    })
}

/// Carries out a plan, and returns the report of its delta, by the keys that the seats and the tags give its slots. If
/// an allocation fails, the text is as it was.
pub fn carry_out<S: TextStore>(
    alloc: Global,
    seats: &NameList,
    tags: &TagTable,
    text: &mut EditedText<S>,
    plan: Plan<S>,
) -> Result<EditTold, AllocError>
    requires limit { seats.now.limit ≡ MOST_WIDGETS }
    requires seated { AreSeats seats.now.entries }
    requires sound { AreTags tags.now }
    requires short { length (S.content text.old.store).cells ≤ 2 ^ 60 }
    requires stand { IfSome plan.delta
        (λ delta. AreHunks 0 (length (S.content text.old.store).cells) (box_value delta).hunks.items) }
    requires ready { S.ready text.old.store plan.prepared }
    requires room { HasRoomFor plan.effects text.old.history }
    ensures made { OnOk result (state_in S.content text.new
        ≡ planned plan.effects (S.outcome text.old.store plan.prepared) text.old.anchors.items
        (log_of text.old.history)) }
    ensures told { IfOk result (λ told. (actions : List Action) →
        KnowsDelta true actions (S.content text.old.store).cells (S.outcome text.old.store plan.prepared).cells
        plan.delta →
        let pairs = key_pairs seats.now.entries tags.now.tags in
        TellsCells actions (keyed pairs (S.content text.old.store).cells) (keyed pairs (S.content text.new.store).cells)
        told) }
    ensures refused { OnErr result (text.new ≡ text.old) }
{
    let mut plan = plan;
    let delta = plan.delta.take();
    let told = report(alloc, seats, tags, &text.store, delta)?;
    commit(plan, text);
    Ok(told)
}

/// Carries out the plan of an edit, if it was made, and returns its report. Otherwise the text is as it was.
fn carry_out_made<S: TextStore>(
    alloc: Global,
    seats: &NameList,
    tags: &TagTable,
    text: &mut EditedText<S>,
    made: Result<Plan<S>, Fault>,
) -> Result<EditTold, Fault>
    requires limit { seats.now.limit ≡ MOST_WIDGETS }
    requires seated { AreSeats seats.now.entries }
    requires sound { OnOk made (AreTags tags.now) }
    requires short { length (S.content text.old.store).cells ≤ 2 ^ 60 }
    requires stand { IfOk made (λ plan. IfSome plan.delta
        (λ delta. AreHunks 0 (length (S.content text.old.store).cells) (box_value delta).hunks.items)) }
    requires ready { IfOk made (λ plan. S.ready text.old.store plan.prepared) }
    requires room { IfOk made (λ plan. HasRoomFor plan.effects text.old.history) }
    ensures made { OnOk result (IfOk made (λ plan. state_in S.content text.new
        ≡ planned plan.effects (S.outcome text.old.store plan.prepared) text.old.anchors.items
        (log_of text.old.history))) }
    ensures told { IfOk result (λ told. IfOk made (λ plan. (actions : List Action) →
        KnowsDelta true actions (S.content text.old.store).cells (S.outcome text.old.store plan.prepared).cells
        plan.delta →
        let pairs = key_pairs seats.now.entries tags.now.tags in
        TellsCells actions (keyed pairs (S.content text.old.store).cells) (keyed pairs (S.content text.new.store).cells)
        told)) }
    ensures planned { OnOk result (IsOk made) }
    ensures refused { OnErr result (text.new ≡ text.old) }
    ensures fault { IfErr result (λ fault. fault ≢ Memory → made ≡ Err fault) }
{
    Ok(carry_out(alloc, seats, tags, text, made?)?)
}

/// Carries out the plan of an edit, if it was made, and returns its report. Otherwise the text is as it was, and the
/// tags after the first `front`, which were made for the edit, are removed again.
pub fn carry_out_tagged<S: TextStore>(
    alloc: Global,
    seats: &NameList,
    tags: &mut TagTable,
    front: usize,
    text: &mut EditedText<S>,
    made: Result<Plan<S>, Fault>,
) -> Result<EditTold, Fault>
    requires limit { seats.now.limit ≡ MOST_WIDGETS }
    requires seated { AreSeats seats.now.entries }
    requires sound { OnOk made (AreTags tags.old) }
    requires kept { slot_of sel (take front tags.old.tags) ≡ Some 0 }
    requires short { length (S.content text.old.store).cells ≤ 2 ^ 60 }
    requires stand { IfOk made (λ plan. IfSome plan.delta
        (λ delta. AreHunks 0 (length (S.content text.old.store).cells) (box_value delta).hunks.items)) }
    requires ready { IfOk made (λ plan. S.ready text.old.store plan.prepared) }
    requires room { IfOk made (λ plan. HasRoomFor plan.effects text.old.history) }
    ensures made { OnOk result (IfOk made (λ plan. state_in S.content text.new
        ≡ planned plan.effects (S.outcome text.old.store plan.prepared) text.old.anchors.items
        (log_of text.old.history))) }
    ensures told { IfOk result (λ told. IfOk made (λ plan. (actions : List Action) →
        KnowsDelta true actions (S.content text.old.store).cells (S.outcome text.old.store plan.prepared).cells
        plan.delta →
        let pairs = key_pairs seats.now.entries tags.new.tags in
        TellsCells actions (keyed pairs (S.content text.old.store).cells) (keyed pairs (S.content text.new.store).cells)
        told)) }
    ensures planned { OnOk result (IsOk made) }
    ensures tags { OnOk result (tags.new ≡ tags.old) }
    ensures back { OnErr result (tags.new ≡ record tags.old { tags = take front tags.old.tags }) }
    ensures refused { OnErr result (text.new ≡ text.old) }
    ensures fault { IfErr result (λ fault. fault ≢ Memory → made ≡ Err fault) }
{
    let carried = carry_out_made(alloc, seats, tags, text, made);
    if carried.is_err() {
        tags.truncate(front);
    }
    carried
}
