//! What an event comes to.

/// What an event came to.
#[derive(Clone, Copy, Debug, PartialEq, Eq)]
pub enum Step {
    /// Its condition held, and it took effect.
    Done,
    /// Its condition failed, or it names a session or a block out of range: nothing changed.
    Skipped,
}
