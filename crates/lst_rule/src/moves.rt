//! One atomic step on a word, by its operation.
ghost use Rattle.std.specs.Prelude.{◌≡◌, ◌<◌, ◌+◌, ◌%◌, ◌^◌, slice_index, ◌==◌, bit_or};
ghost use prog.Atomic.{either};
ghost use Rattle.lst_rule.specs.Rule.{Ready, Told};

use crate::actions::Action;
use crate::rule::{Adds, Exchanges, Loads, Means, SetsBits, StoreRule, Stores};
use crate::view::View;
use atomic_table::{Seat, Shared};
use lst_layout::Limits;
use std::marker::Brand;

/// The table of the words, as threads share it.
pub type SharedWords = Shared<(), View, Limits, StoreRule>;

/// A seat at the table, with a view.
pub type TableSeat = Seat<(), View>;

fn load_word_as<E: Means>(
    words: &SharedWords,
    seat: &mut TableSeat,
    _action: Action,
    word: usize,
) -> u64
    requires table { (seat.old.table_id ≡ words.now.table_id) × (word < words.now.table_id.words) }
    requires ready { Ready seat.old.me.0 E.action word (λ n. n) }
    ensures table { (seat.new.table_id ≡ seat.old.table_id) × (seat.new.id ≡ seat.old.id) × (seat.new.me.1 ≡ seat.old.me.1) }
    ensures told { (t : Told E.action word result seat.old.me.0 seat.new.me.0) × (slice_index t.words word ≡ result) }
{
    words.load::<Loads<E>>(seat, word)
}

/// Loads the word as this step, and answers what it found. The seat's view has to show that
/// the step may be made and makes of the word what it is to make of it.
pub fn load_word(words: &SharedWords, seat: &mut TableSeat, action: Action, word: usize) -> u64
    requires table { (seat.old.table_id ≡ words.now.table_id) × (word < words.now.table_id.words) }
    requires ready { Ready seat.old.me.0 action word (λ n. n) }
    ensures table { (seat.new.table_id ≡ seat.old.table_id) × (seat.new.id ≡ seat.old.id) × (seat.new.me.1 ≡ seat.old.me.1) }
    ensures told { (t : Told action word result seat.old.me.0 seat.new.me.0) × (slice_index t.words word ≡ result) }
{
    load_word_as::<Brand>(words, seat, action, word)
}

fn store_word_as<E: Means>(
    words: &SharedWords,
    seat: &mut TableSeat,
    _action: Action,
    word: usize,
    new: u64,
)
    requires table { (seat.old.table_id ≡ words.now.table_id) × (word < words.now.table_id.words) }
    requires ready { Ready seat.old.me.0 E.action word (λ _. new) }
    ensures table { (seat.new.table_id ≡ seat.old.table_id) × (seat.new.id ≡ seat.old.id) × (seat.new.me.1 ≡ seat.old.me.1) }
    ensures told { Told E.action word new seat.old.me.0 seat.new.me.0 }
{
    words.store::<Stores<E>>(seat, word, new);
}

/// Stores a number in the word as this step. The seat's view has to show that
/// the step may be made and makes of the word what it is to make of it.
pub fn store_word(words: &SharedWords, seat: &mut TableSeat, action: Action, word: usize, new: u64)
    requires table { (seat.old.table_id ≡ words.now.table_id) × (word < words.now.table_id.words) }
    requires ready { Ready seat.old.me.0 action word (λ _. new) }
    ensures table { (seat.new.table_id ≡ seat.old.table_id) × (seat.new.id ≡ seat.old.id) × (seat.new.me.1 ≡ seat.old.me.1) }
    ensures told { Told action word new seat.old.me.0 seat.new.me.0 }
{
    store_word_as::<Brand>(words, seat, action, word, new);
}

fn compare_exchange_as<E: Means>(
    words: &SharedWords,
    seat: &mut TableSeat,
    _action: Action,
    word: usize,
    old: u64,
    new: u64,
) -> u64
    requires table { (seat.old.table_id ≡ words.now.table_id) × (word < words.now.table_id.words) }
    requires ready { Ready seat.old.me.0 E.action word (λ n. either (n == old) new n) }
    ensures table { (seat.new.table_id ≡ seat.old.table_id) × (seat.new.id ≡ seat.old.id) × (seat.new.me.1 ≡ seat.old.me.1) }
    ensures told { (t : Told E.action word (either (result == old) new result) seat.old.me.0 seat.new.me.0) × (slice_index t.words word ≡ result) }
{
    words.compare_exchange::<Exchanges<E>>(seat, word, old, new)
}

/// Stores `new` in the word where it is `old`, as this step, and answers what it found. The seat's view has to show that
/// the step may be made and makes of the word what it is to make of it.
pub fn compare_exchange(
    words: &SharedWords,
    seat: &mut TableSeat,
    action: Action,
    word: usize,
    old: u64,
    new: u64,
) -> u64
    requires table { (seat.old.table_id ≡ words.now.table_id) × (word < words.now.table_id.words) }
    requires ready { Ready seat.old.me.0 action word (λ n. either (n == old) new n) }
    ensures table { (seat.new.table_id ≡ seat.old.table_id) × (seat.new.id ≡ seat.old.id) × (seat.new.me.1 ≡ seat.old.me.1) }
    ensures told { (t : Told action word (either (result == old) new result) seat.old.me.0 seat.new.me.0) × (slice_index t.words word ≡ result) }
{
    compare_exchange_as::<Brand>(words, seat, action, word, old, new)
}

fn add_one_as<E: Means>(
    words: &SharedWords,
    seat: &mut TableSeat,
    _action: Action,
    word: usize,
) -> u64
    requires table { (seat.old.table_id ≡ words.now.table_id) × (word < words.now.table_id.words) }
    requires ready { Ready seat.old.me.0 E.action word (λ n. (n + 1) % 2 ^ 64) }
    ensures table { (seat.new.table_id ≡ seat.old.table_id) × (seat.new.id ≡ seat.old.id) × (seat.new.me.1 ≡ seat.old.me.1) }
    ensures told { (t : Told E.action word ((result + 1) % 2 ^ 64) seat.old.me.0 seat.new.me.0) × (slice_index t.words word ≡ result) }
{
    words.fetch_add::<Adds<E>>(seat, word, 1)
}

/// Adds 1 to the word as this step, and answers what it found. The seat's view has to show that
/// the step may be made and makes of the word what it is to make of it.
pub fn add_one(words: &SharedWords, seat: &mut TableSeat, action: Action, word: usize) -> u64
    requires table { (seat.old.table_id ≡ words.now.table_id) × (word < words.now.table_id.words) }
    requires ready { Ready seat.old.me.0 action word (λ n. (n + 1) % 2 ^ 64) }
    ensures table { (seat.new.table_id ≡ seat.old.table_id) × (seat.new.id ≡ seat.old.id) × (seat.new.me.1 ≡ seat.old.me.1) }
    ensures told { (t : Told action word ((result + 1) % 2 ^ 64) seat.old.me.0 seat.new.me.0) × (slice_index t.words word ≡ result) }
{
    add_one_as::<Brand>(words, seat, action, word)
}

fn set_lowest_bit_as<E: Means>(
    words: &SharedWords,
    seat: &mut TableSeat,
    _action: Action,
    word: usize,
) -> u64
    requires table { (seat.old.table_id ≡ words.now.table_id) × (word < words.now.table_id.words) }
    requires ready { Ready seat.old.me.0 E.action word (λ n. bit_or n 1) }
    ensures table { (seat.new.table_id ≡ seat.old.table_id) × (seat.new.id ≡ seat.old.id) × (seat.new.me.1 ≡ seat.old.me.1) }
    ensures told { (t : Told E.action word (bit_or result 1) seat.old.me.0 seat.new.me.0) × (slice_index t.words word ≡ result) }
{
    words.fetch_or::<SetsBits<E>>(seat, word, 1)
}

/// Sets the lowest bit of the word as this step, and answers what it found. The seat's view has to show that
/// the step may be made and makes of the word what it is to make of it.
pub fn set_lowest_bit(words: &SharedWords, seat: &mut TableSeat, action: Action, word: usize) -> u64
    requires table { (seat.old.table_id ≡ words.now.table_id) × (word < words.now.table_id.words) }
    requires ready { Ready seat.old.me.0 action word (λ n. bit_or n 1) }
    ensures table { (seat.new.table_id ≡ seat.old.table_id) × (seat.new.id ≡ seat.old.id) × (seat.new.me.1 ≡ seat.old.me.1) }
    ensures told { (t : Told action word (bit_or result 1) seat.old.me.0 seat.new.me.0) × (slice_index t.words word ≡ result) }
{
    set_lowest_bit_as::<Brand>(words, seat, action, word)
}
