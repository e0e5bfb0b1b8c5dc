//! What a view is asked for: places of indices, patterns, counts and dumps.

ghost use Rattle.std.specs.Prelude.{◌≡◌};

use crate::scenes::{Scene, store_with, two_lines};
use index_grammar::Direction;
use search_dump::{Counted, Listed, SearchSwitches, Sight, Wanted, count, dump, search};
use std::alloc::Global;
use std::process::Abort;
use std::test::Fail;
use text_index::{Names, View, change_after, locate, parse, push_index, resolve};
use text_model::{PlainStore, TagSet, TagSlot, TextStore};

// An index, and the place that it stands for as an index is printed.
struct Indexed {
    word: &'static str,
    place: &'static str,
}

static INDEXED: [Indexed; 5] = [
    Indexed {
        word: "1.4",
        place: "1.4",
    },
    Indexed {
        word: "2.0 - 1 chars",
        place: "1.7",
    },
    Indexed {
        word: "1.5 + 1 lines lineend",
        place: "2.5",
    },
    Indexed {
        word: "1.5 wordstart",
        place: "1.4",
    },
    Indexed {
        word: "end",
        place: "3.0",
    },
];

fn names_of(scene: &Scene) -> Names<'_>
    ensures { result.widget.0 ≡ 0 }
{
    Names {
        tags: &scene.tags,
        marks: &scene.marks,
        widget: TagSlot(0),
    }
}

fn whole_view<'a>(rt: &impl Abort, store: &'a PlainStore) -> View<'a, PlainStore> {
    View::try_new(store, 0, store.len()).expect(rt, "a text is whole lines")
}

fn check_index(rt: &impl Abort, alloc: Global, scene: &Scene, row: &Indexed) -> Result<(), Fail> {
    let view = whole_view(rt, &scene.store);
    let index = parse(alloc, row.word, &names_of(scene))?;
    let place = resolve(&index, &view)?;
    assert!(rt; view.store.len() < usize::MAX);
    let located = locate(row.word, &names_of(scene), &view)?;
    assert!(rt; located == place, "{located}");
    let mut text = String::new(alloc);
    push_index(&mut text, &view, place)?;
    assert!(rt; text.as_str() == row.place, "{text}");
    Ok(())
}

fn check_indices(
    rt: &impl Abort,
    alloc: Global,
    scene: &Scene,
    rows: &[Indexed],
) -> Result<(), Fail> {
    for row in rows {
        check_index(rt, alloc, scene, row)?;
    }
    Ok(())
}

fn check_search(rt: &impl Abort, alloc: Global, scene: &Scene) -> Result<(), Fail> {
    let view = whole_view(rt, &scene.store);
    assert!(rt; view.start <= view.end);
    let switches = SearchSwitches {
        direction: Direction::Forward,
        wanted: Wanted::Apart,
        ignores_case: false,
        is_strict: false,
    };
    let found = search(alloc, &view, switches, "e", 0, None)?;
    assert!(rt; found.as_str() == "1.2 2.3 2.4", "{found}");
    Ok(())
}

fn check_counts(rt: &impl Abort, alloc: Global, scene: &Scene) -> Result<(), Fail> {
    let view = whole_view(rt, &scene.store);
    assert!(rt; view.start == 0 && 9 <= view.end);
    let options = [Counted::Characters, Counted::Lines];
    let counts = count(alloc, &view, &options, 1, 9)?;
    assert!(rt; counts.as_str() == "8 1", "{counts}");
    Ok(())
}

fn check_dump(rt: &impl Abort, alloc: Global, scene: &Scene) -> Result<(), Fail> {
    let view = whole_view(rt, &scene.store);
    assert!(rt; view.start == 0 && 9 <= view.end);
    let names = names_of(scene);
    let sight = Sight {
        view: &view,
        names: &names,
    };
    let listed = Listed {
        tags: true,
        marks: true,
        text: true,
    };
    let list = dump(alloc, &sight, listed, 4, 9)?;
    assert!(rt; list.as_str() == "text {two\n} 1.4 text t 2.0", "{list}");
    Ok(())
}

fn check_all(rt: &impl Abort, alloc: Global, scene: &Scene) -> Result<(), Fail> {
    check_indices(rt, alloc, scene, &INDEXED)?;
    check_search(rt, alloc, scene)?;
    check_counts(rt, alloc, scene)?;
    check_dump(rt, alloc, scene)
}

#[test]
fn a_view_answers(rt: HostRuntime) -> Result<(), Fail> {
    let scene = two_lines(rt.alloc())?;
    check_all(&rt, rt.alloc(), &scene)
}

// Where a tag of all characters but the newline changes.
fn check_change(rt: &impl Abort, store: &PlainStore, slot: TagSlot) {
    let view = whole_view(rt, store);
    assert!(rt; view.start == 0 && view.end == 4 && slot.0 < TagSet::SLOTS);
    assert!(rt; change_after(&view, slot, 0) == 3);
}

#[test]
fn a_tag_changes_after_its_last_character(rt: HostRuntime) -> Result<(), Fail> {
    let slot = TagSlot(70);
    let store: PlainStore = store_with(rt.alloc(), "one", TagSet::empty().with(slot))?;
    check_change(&rt, &store, slot);
    Ok(())
}
