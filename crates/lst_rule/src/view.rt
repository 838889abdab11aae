//! What a seat at the table knows.
use lst_core_state::{Fact, Known};
use lst_layout::Limits;
use lst_model::Commit;
use std::collections::LinkedList;

/// What a seat knows. No value of it is made at run time. Sessions are named by their numbers, and the merger by the number
/// of the sessions.
pub struct View {
    pub limits: Limits,
    /// Whether it hosts each session, and last the merger.
    pub hosts: LinkedList<bool>,
    /// What each session knows that it hosts, and last the merger.
    pub known: LinkedList<Known>,
    /// A history that it was told.
    pub note: LinkedList<Commit>,
    /// Facts that it was told with it; they have the record of each key that the history wrote.
    pub note_facts: LinkedList<Fact>,
    /// It hosts every session and the merger, and knows each word: since the store opened, or since it took stock.
    pub whole: bool,
    /// The words, where it knows each.
    pub words: LinkedList<u64>,
}
