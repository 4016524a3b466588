//! Outcomes of a batch's operations over parts of the rows, put together.

ghost use Rattle.std.specs.Prelude.{◌≡◌};
ghost use Rattle.graph_types.specs.Outcomes.{together, told, written};

use crate::Outcome;

/// Puts outcomes together with those at their places; one whose place is past the end is let go. It takes no memory.
///
/// ```
/// write_outcomes(&mut all, shard.outcomes);
/// ```
#[tactic(auto, using(crate::proofs::PlacedOutcomes::written_more, crate::proofs::PlacedOutcomes::written_past))]
pub fn write_outcomes(outcomes: &mut Vec<Outcome>, found: Vec<(u32, Outcome)>)
    ensures { outcomes.new.items ≡ written found.items outcomes.old.items }
{
    for (place, outcome) in found {
        let place = place as usize;
        if place < outcomes.len() {
            outcomes[place] = put_together(outcomes[place], outcome);
        }
    }
}

/// What is told of an operation after one more row or shard: an expiry's counts are added, and of all else the later outcome
/// stands. It takes no memory.
///
/// ```
/// let so_far = put_together(so_far, Outcome::Expired(3));
/// ```
#[inline(always)]
pub fn put_together(before: Outcome, found: Outcome) -> Outcome
    ensures { result ≡ told (together before found) }
{
    let Outcome::Expired(so_far) = before else {
        return found;
    };
    let Outcome::Expired(more) = found else {
        return found;
    };
    Outcome::Expired(so_far.wrapping_add(more))
}
