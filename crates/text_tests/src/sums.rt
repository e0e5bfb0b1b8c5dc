//! Sums of lines, characters, marks and toggles, and sets of slots.

use text_model::{TagSet, TagSlot, WORDS};
use toggle_sums::{Exchange, Summary, Sums};

fn joined() -> Sums<WORDS> {
    let slots = TagSet::empty().with(TagSlot(3)).with(TagSlot(64));
    let mut first = Sums::counting(1, 5, 2);
    first.add_word(&slots.word(0));
    first.add_word(&slots.word(1));
    let second = Sums::counting(2, 7, 0).toggled(TagSlot(3));
    Sums::zero().plus(&first).plus(&second)
}

#[test]
fn sums_add_up(rt: HostRuntime) {
    let sums = joined();
    assert!(rt; sums.lines() == 3 && sums.characters() == 12 && sums.marks() == 2);
    assert!(rt; sums.has(TagSlot(3)) && !sums.parity(TagSlot(3)));
    assert!(rt; sums.has(TagSlot(64)) && sums.parity(TagSlot(64)));
    assert!(rt; !sums.has(TagSlot(65)) && !sums.parity(TagSlot(65)));
    assert!(rt; sums.odd_slots().has(TagSlot(64)));
    let mut slots = TagSet::empty().with(TagSlot(64)).with(TagSlot(65));
    sums.turn_odd_slots(&mut slots);
    assert!(rt; !slots.has(TagSlot(64)) && slots.has(TagSlot(65)));
}

#[test]
fn sums_lose_numbers(rt: HostRuntime) {
    let mut less = joined();
    assert!(rt; less.lines() == 3 && less.characters() == 12 && less.marks() == 2);
    less.lose_counts(1, 5, 2);
    assert!(rt; less.lines() == 2 && less.characters() == 7 && less.marks() == 0);
    assert!(rt; less.has(TagSlot(3)) && less.parity(TagSlot(64)) && !less.is_bare());
    let bare: Sums<WORDS> = Sums::counting(1, 2, 3);
    assert!(rt; bare.is_bare());
}

#[test]
fn sums_gain_numbers(rt: HostRuntime) {
    let mut sums = joined();
    assert!(rt; sums.lines() == 3 && sums.characters() == 12 && sums.marks() == 2);
    sums.add_counts(1, 5, 2);
    assert!(rt; sums.lines() == 4 && sums.characters() == 17 && sums.marks() == 4);
    assert!(rt; sums.has(TagSlot(3)) && sums.parity(TagSlot(64)) && !sums.is_bare());
}

#[test]
fn sums_lose_a_part(rt: HostRuntime) {
    let sums = joined();
    let part = Sums::counting(1, 5, 2).toggled(TagSlot(64));
    assert!(rt; part.is_within(&sums) && !sums.is_within(&part));
    assert!(rt; part.lines() == 1 && part.characters() == 5 && part.marks() == 2);
    assert!(rt; sums.lines() == 3 && sums.characters() == 12 && sums.marks() == 2);
    let mut rest = sums;
    rest.lose(&part);
    assert!(rt; rest.lines() == 2 && rest.characters() == 7 && rest.marks() == 0);
    assert!(rt; rest.has(TagSlot(64)) && !rest.parity(TagSlot(64)));
}

#[test]
fn sums_exchange_a_part(rt: HostRuntime) {
    let tagged: Sums<WORDS> = Sums::counting(1, 5, 0).toggled(TagSlot(64));
    let longer = Sums::counting(1, 8, 1).toggled(TagSlot(64));
    let bare = Sums::counting(1, 5, 0);
    assert!(rt; tagged.has_toggles_of(&longer) && !tagged.has_toggles_of(&bare));
    let level = Exchange::between(&tagged, &longer);
    let within = Exchange::between(&bare, &tagged);
    let outside = Exchange::between(&tagged, &bare);
    assert!(rt; level.is_level && level.is_within && within.is_within && !within.is_level);
    assert!(rt; !outside.is_within && !outside.is_level);
    assert!(rt; outside.gone.has(TagSlot(64)) && outside.more.is_bare());
    let mut sum = bare;
    assert!(rt; sum.lines() == 1 && sum.characters() == 5 && sum.marks() == 0);
    assert!(rt; tagged.lines() == 1 && tagged.characters() == 5 && tagged.marks() == 0);
    sum.add(&tagged);
    assert!(rt; sum.lines() == 2 && sum.characters() == 10 && sum.parity(TagSlot(64)));
    sum.lose_counts(1, 5, 0);
    assert!(rt; sum.lines() == 1 && sum.characters() == 5 && sum.has(TagSlot(64)));
}

#[test]
fn sets_differ(rt: HostRuntime) {
    let some = TagSet::empty().with(TagSlot(3)).with(TagSlot(64));
    let other = TagSet::empty().with(TagSlot(3)).with(TagSlot(1023));
    let differing = TagSet::of_words(some.words()).differing(&other);
    assert!(rt; differing.has(TagSlot(64)) && differing.has(TagSlot(1023)));
    assert!(rt; !differing.has(TagSlot(3)));
    let mut turned = some;
    turned.flip(&other);
    assert!(rt; turned.has(TagSlot(64)) && turned.has(TagSlot(1023)) && !turned.is_empty());
    turned.flip_words(&differing.words(), WORDS);
    assert!(rt; turned.is_empty());
}
