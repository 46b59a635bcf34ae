// What is kept of an event.

use crate::event_kinds::EventKind;

/// An event.
#[derive(Clone, Copy)]
pub struct EventRow {
    /// Its number among all events ever made, from 1.
    pub number: u64,
    /// What it was made as.
    pub kind: EventKind,
    /// Whether it was signaled at first.
    pub initial: bool,
}
