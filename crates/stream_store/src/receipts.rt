//! What an accepted batch is answered with.

use graph_types::{List, Outcome};
use std::fmt;
use version_shelf::Told;

/// The answer to an accepted batch: the number of the version that it made, its operations' outcomes in their order, and
/// the posted version.
///
/// ```
/// let receipt = store.apply(rt, &PassAll, batch)?;
/// let is_past_range = receipt.outcomes.as_slice().contains(&Outcome::Overflow);
/// ```
#[derive(Drop)]
pub struct Receipt {
    pub number: u64,
    pub outcomes: List<Outcome>,
    pub told: Told,
}

// Written by hand: how many outcomes there are, and not each of them.
impl fmt::Debug for Receipt {
    fn fmt<F: fmt::Write>(&self, f: &mut fmt::Formatter<F>) -> fmt::Result {
        f.debug_struct("Receipt")
            .field("number", &self.number)
            .field("outcomes", &self.outcomes.len())
            .finish_non_exhaustive()
    }
}
