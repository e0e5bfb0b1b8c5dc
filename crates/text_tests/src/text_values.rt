//! The values of text_model: steps, characters, limits, sets of slots, texts.

use std::alloc::Global;
use std::process::Abort;
use std::test::Fail;
use text_model::{
    Limits, SlotWord, Step, StepList, TagSet, TagSlot, Text, count_characters, front_bytes,
};

// ---- steps

// Puts in a text with the tag of slot 9.
fn push_step(alloc: Global, steps: &mut StepList, at: usize, text: &str) -> Result<(), Fail> {
    let text = Text::new(String::from_str(alloc, text)?);
    steps.push(Step::Insert(at, text, TagSet::empty().with(TagSlot(9))))?;
    Ok(())
}

fn is_step(step: &Step, at: usize, text: &str) -> bool {
    match step {
        Step::Insert(place, found, tags) => {
            *place == at && found.as_str() == text && tags.has(TagSlot(9))
        }
        _ => false,
    }
}

#[test]
fn steps_stand_in_order(rt: HostRuntime) -> Result<(), Fail> {
    let mut steps = StepList::new(rt.alloc());
    assert!(rt; steps.as_slice().is_empty());
    push_step(rt.alloc(), &mut steps, 7, "a")?;
    push_step(rt.alloc(), &mut steps, 0, "bc")?;
    let stand = match steps.as_slice() {
        [first, second] => is_step(first, 7, "a") && is_step(second, 0, "bc"),
        _ => false,
    };
    assert!(rt; stand);
    Ok(())
}

#[test]
fn steps_are_given_back(rt: HostRuntime) -> Result<(), Fail> {
    let mut steps = Vec::new(rt.alloc());
    steps.push(Step::ClearSlot(TagSlot(9)))?;
    let steps = StepList::from_vec(steps).into_vec();
    let stand = matches!(steps.as_slice(), [Step::ClearSlot(TagSlot(9))]);
    assert!(rt; stand);
    Ok(())
}

// ---- characters

// A character of each length, and then more than a block of bytes holds.
const MIXED: &str = "a\u{e9}\u{20ac}\u{1f600}0123456789012345678901234567890123456789";

#[test]
fn characters_are_counted(rt: HostRuntime) {
    let count = count_characters(MIXED);
    assert!(rt; count == 44);
    assert!(rt; front_bytes(MIXED, 3) == 6);
}

// ---- limits

fn gives_numbers(limits: &Limits) -> bool {
    limits.chars() == 100
        && limits.tags() == 3
        && limits.marks() == 5
        && limits.widgets() == 7
        && limits.reads() == 11
}

#[test]
fn readers_give_the_numbers(rt: HostRuntime) {
    let limits = Limits::new(100, 3, 5, 7, 11);
    assert!(rt; limits.is_some_and(|limits| gives_numbers(&limits)));
}

static KNOWN: [(usize, u16, u16, u16, u32, bool); 9] = [
    (1, 0, 0, 0, u32::MAX, true),
    (0, 0, 0, 0, u32::MAX, false),
    (0, 1, 1, 1, 1, false),
    (16_777_217, 193, 0, 0, 1, true),
    (134_217_728, 960, 4_096, 64, 0, true),
    (134_217_729, 960, 4_096, 64, 0, false),
    (134_217_728, 961, 4_096, 64, 0, false),
    (134_217_728, 960, 4_097, 64, 0, false),
    (134_217_728, 960, 4_096, 65, 0, false),
];

#[test]
fn numbers_have_bounds(rt: HostRuntime) {
    for (chars, tags, marks, widgets, reads, is_known) in &KNOWN {
        let limits = Limits::new(*chars, *tags, *marks, *widgets, *reads);
        assert!(rt;
            limits.is_some() == *is_known,
            "{chars} {tags} {marks} {widgets} {reads}"
        );
    }
}

// ---- sets of slots

// Of the slots at both ends of the words of a set.
fn has_ends(tags: &TagSet, first: bool, middle: bool, last: bool) -> bool {
    tags.has(TagSlot(0)) == first
        && tags.has(TagSlot(63)) == middle
        && tags.has(TagSlot(64)) == middle
        && tags.has(TagSlot(1023)) == last
}

fn ends() -> TagSet {
    TagSet::empty()
        .with(TagSlot(0))
        .with(TagSlot(63))
        .with(TagSlot(64))
        .with(TagSlot(1023))
}

#[test]
fn slots_are_put_in(rt: HostRuntime) {
    let none = TagSet::empty();
    let ends = ends();
    for number in 0..TagSet::SLOTS {
        let is_end = number == 0 || number == 63 || number == 64 || number == 1023;
        assert!(rt; !none.has(TagSlot(number)), "{number}");
        assert!(rt; ends.has(TagSlot(number)) == is_end, "{number}");
    }
}

#[test]
fn slots_are_taken_out(rt: HostRuntime) {
    let fewer = ends()
        .without(TagSlot(63))
        .without(TagSlot(64))
        .without(TagSlot(1));
    assert!(rt; has_ends(&fewer, true, false, true));
}

#[test]
fn slots_are_common(rt: HostRuntime) {
    let some = TagSet::empty().with(TagSlot(64)).with(TagSlot(65));
    let both = ends().common(&some);
    assert!(rt; both.has(TagSlot(64)));
    assert!(rt; !both.has(TagSlot(65)));
    assert!(rt; !both.has(TagSlot(0)));
}

// ---- slots of one word

#[test]
fn a_slot_has_a_word(rt: HostRuntime) {
    let one = SlotWord::of(TagSlot(70));
    assert!(rt; one.index() == 1 && one.bits() == 64);
    assert!(rt; one.has(TagSlot(70)) && !one.has(TagSlot(6)) && !one.is_empty());
    assert!(rt; one.without(TagSlot(6)).has(TagSlot(70)) && one.without(TagSlot(70)).is_empty());
}

#[test]
fn words_differ(rt: HostRuntime) {
    let two = SlotWord::of_bits(1, 65);
    let one = SlotWord::of(TagSlot(64));
    assert!(rt; two.index() == one.index());
    let left = two.differing(&one);
    assert!(rt; !left.has(TagSlot(64)) && left.has(TagSlot(70)));
}

#[test]
fn a_set_has_words(rt: HostRuntime) {
    let mut tags = ends();
    let word = tags.word(1);
    assert!(rt; tags.word_count() == 3 && word.has(TagSlot(64)) && tags.word(2).is_empty());
    tags.flip_word(&word);
    assert!(rt; tags.word_count() == 2 && !tags.has(TagSlot(64)) && tags.has(TagSlot(63)));
}

// ---- texts

#[test]
fn a_text_is_kept(rt: HostRuntime) -> Result<(), Fail> {
    let text = Text::new(String::from_str(rt.alloc(), "añ\n")?);
    let is_kept = text.as_str() == "añ\n";
    assert!(rt; is_kept);
    let is_given_back = text.into_string().as_str() == "añ\n";
    assert!(rt; is_given_back);
    Ok(())
}
