//! Probes of small tables, and where a run begins.

use crate::same::same;
use lst_probe::{
    Found, distinct_within, empty_position, find, one_answer, pigeonhole, reachable_positions,
    run_positions, start,
};

#[test]
fn a_run_begins_at_the_high_bits_of_the_hash(rt: HostRuntime) {
    same(&rt, start(7, 11), 668, ());
}

#[test]
fn a_probe_wraps_round_to_an_equal_value_or_an_empty_position(rt: HostRuntime) {
    let positions = [30, 0, 0, 0, 0, 0, 10, 20];
    for (from, word, want) in [
        (6, 30, Found::At { position: 0 }),
        (7, 20, Found::At { position: 7 }),
        (6, 40, Found::Free { position: 1 }),
        (1, 10, Found::Free { position: 1 }),
    ] {
        same(
            &rt,
            find(&positions, from, |other| other == word),
            want,
            (word, from),
        );
    }
}

#[test]
fn equality_may_be_told_by_what_a_word_points_to(rt: HostRuntime) {
    let keys = [10, 20, 30];
    let positions = [3, 0, 1, 2];
    for (key, want) in [
        (30, Found::At { position: 0 }),
        (40, Found::Free { position: 1 }),
    ] {
        let found = find(&positions, 2, |word| keys[word as usize - 1] == key);
        same(&rt, found, want, key);
    }
}

#[test]
fn laws_hold() {
    pigeonhole();
    distinct_within::<u64>();
    empty_position();
    run_positions();
    reachable_positions();
    one_answer();
}
