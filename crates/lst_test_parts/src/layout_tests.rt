//! The addresses of a store with the default limits and with the greatest, and limits that are out of range.

use crate::same::same;
use lst_layout::{BadLimits, Layout, Limits, Place, Which, opening_words};
use std::test::Fail;

const GREATEST: Limits = Limits {
    columns: 8,
    ranges: 64,
    tails: 16_384,
    sessions: 16,
    txns: 65_535,
    spare: 64,
    indexed: 255,
};

#[test]
fn default_limits_have_143_476_words(rt: HostRuntime) -> Result<(), Fail> {
    let layout = Limits::default().check()?;
    same(&rt, layout.words, 143_476, ());
    Ok(())
}

#[test]
fn greatest_limits_have_31_821_732_words(rt: HostRuntime) -> Result<(), Fail> {
    let layout = GREATEST.check()?;
    same(&rt, layout.words, 31_821_732, ());
    Ok(())
}

#[test]
fn opening_words_number_the_pages_alone(rt: HostRuntime) -> Result<(), Fail> {
    let layout = Limits::default().check()?;
    let words = opening_words(rt.alloc(), &layout)?;
    assert_eq!(rt; words.len(), 143_476);
    same(
        &rt,
        words[layout.directory(0, 0) as usize],
        0,
        "the first page",
    );
    same(
        &rt,
        words[layout.directory(3, 1) as usize],
        7,
        "the last page",
    );
    same(
        &rt,
        words.iter().filter(|word| **word != 0).count(),
        7,
        "pages",
    );
    Ok(())
}

#[test]
fn the_first_limit_out_of_range_is_named(rt: HostRuntime) {
    let many_ranges = Limits {
        ranges: 65,
        ..GREATEST
    };
    let two_faults = Limits {
        columns: 0,
        ..many_ranges
    };
    let high_bit = Limits {
        columns: 2,
        indexed: 4,
        ..GREATEST
    };
    for (limits, which) in [
        (many_ranges, Which::Ranges),
        (two_faults, Which::Columns),
        (high_bit, Which::Indexed),
    ] {
        same(&rt, limits.check(), Err(BadLimits { which }), which);
    }
}

/// The place of a word, or None where the store has no such word.
fn place_of(layout: &Layout, word: u64) -> Option<Place> {
    if word < layout.words {
        Some(layout.place(word))
    } else {
        None
    }
}

#[test]
#[tactic(auto, unfolding(lst_layout::specs::Areas::index_bits, lst_layout::specs::Areas::bits_for))]
fn areas_follow_one_another_with_default_limits(rt: HostRuntime) -> Result<(), Fail> {
    let layout = Limits::default().check()?;
    for (found, wanted) in [
        (layout.clock(), 0),
        (layout.commit_word(), 1),
        (layout.epoch(), 2),
        (layout.record_counter(), 3),
        (layout.log(1), 4),
        (layout.transactions(3, 4096, 1), 49_155),
        (layout.keys(0), 49_156),
        (layout.index(2047), 52_227),
        (layout.indirection(1023), 53_251),
        (layout.tail_counters(0), 53_252),
        (layout.tail_cells(3, 4096, 4), 135_175),
        (layout.cell_address(16_384, 4), 135_175),
        (layout.directory(0, 0), 135_176),
        (layout.frames(15, 517), 143_471),
        (layout.pins(3), 143_475),
        (layout.words, 143_476),
    ] {
        same(&rt, found, wanted, ());
    }
    let cell = Place::CellWord {
        tail: 16_384,
        place: 4,
    };
    for (word, place) in [(53_252, Place::TailCounter { range: 0 }), (135_175, cell)] {
        same(&rt, place_of(&layout, word), Some(place), word);
    }
    Ok(())
}

#[test]
#[tactic(auto, unfolding(lst_layout::specs::Areas::posting_bits, lst_layout::specs::Areas::bits_for))]
fn postings_of_an_indexed_column_come_last(rt: HostRuntime) -> Result<(), Fail> {
    let limits = Limits {
        indexed: 2,
        ..Limits::default()
    };
    let layout = limits.check()?;
    same(&rt, layout.posting_positions(), 32_768, "positions");
    same(&rt, layout.postings(1, 32_767), 176_243, "the last one");
    same(&rt, layout.words, 176_244, "words");
    same(&rt, layout.index_positions(), 2048, "positions of keys");
    same(
        &rt,
        (layout.index_bits(), layout.posting_bits()),
        (11, 15),
        "bits",
    );
    same(&rt, limits.is_indexed(1), true, "column 1");
    Ok(())
}
