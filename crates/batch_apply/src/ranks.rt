//! A list's dense ranks.

ghost use Rattle.std.specs.Prelude.{◌≡◌, ◌<◌, ◌≤◌, ◌^◌, ℕ, length, get_or, IfOk, OnOk, ◌+◌, ◌-◌, ◌⊎◌, Some, nat_eq, slice_get};
ghost use Rattle.std.specs.List.{list_any};
ghost use Rattle.std.specs.List.Sorted.{IsStrictlyIncreasing};
ghost use Rattle.batch_apply.specs.Sorting.{ranked_numbers};

use crate::counting::sorted_entries;
use graph_types::VertexId;
use std::alloc::{AllocError, Global};

/// Distinct vertices by rising number, and for each element of a list the place of its vertex among them.
#[derive(Drop)]
pub struct Ranks {
    pub numbers: Vec<VertexId>,
    pub places: Vec<u32>,
}

/// The dense ranks of a list of at most 2^32 - 1 vertices. It takes time by the list's length.
///
/// ```
/// let ranks = rank(alloc, &[VertexId(7), VertexId(3), VertexId(7)])?; // vertices 3, 7 and places 1, 0, 1
/// ```
pub fn rank(alloc: Global, list: &[VertexId]) -> Result<Ranks, AllocError>
    requires few { length list.now < 2 ^ 32 }
    ensures rising { IfOk result (λ ranks. IsStrictlyIncreasing (ranked_numbers ranks.numbers.items)) }
    ensures same { IfOk result (λ ranks. (n : ℕ) → list_any (nat_eq n) (ranked_numbers ranks.numbers.items)
        ≡ list_any (nat_eq n) (ranked_numbers list.now)) }
    ensures few { IfOk result (λ ranks. length ranks.numbers.items ≤ length list.now) }
    ensures long { IfOk result (λ ranks. length ranks.places.items ≡ length list.now) }
    ensures places { IfOk result (λ ranks. (k : ℕ) → k < length list.now
        → slice_get (ranked_numbers ranks.numbers.items) (get_or ranks.places.items k 0) ≡ Some (get_or (ranked_numbers list.now) k 0)) }
{
    let entries = sorted_entries(alloc, list)?;
    let mut numbers = Vec::with_capacity(alloc, entries.len())?;
    let mut places = vec![in alloc; 0_u32; list.len()]?;
    for index in 0..entries.len() {
        let entry = entries[index];
        add_number(&mut numbers, entry.number)?;
        places[entry.place as usize] = (numbers.len() - 1) as u32;
    }
    Ok(Ranks { numbers, places })
}

/// Adds a number to rising ones that are no greater, if it isn't the last.
fn add_number(numbers: &mut Vec<VertexId>, number: u32) -> Result<(), AllocError>
    requires rising { IsStrictlyIncreasing (ranked_numbers numbers.old.items) }
    requires least { (k : ℕ) → k < length numbers.old.items → get_or (ranked_numbers numbers.old.items) k 0 ≤ number }
    ensures rising { OnOk result (IsStrictlyIncreasing (ranked_numbers numbers.new.items)) }
    ensures kept { OnOk result ((k : ℕ) → k < length numbers.old.items
        → slice_get (ranked_numbers numbers.new.items) k ≡ slice_get (ranked_numbers numbers.old.items) k) }
    ensures last { OnOk result (slice_get (ranked_numbers numbers.new.items) (length numbers.new.items - 1) ≡ Some number) }
    ensures more { OnOk result (length numbers.old.items ≤ length numbers.new.items) }
    ensures few { OnOk result (length numbers.new.items ≤ length numbers.old.items + 1) }
    ensures some { OnOk result (0 < length numbers.new.items) }
    ensures least { OnOk result ((k : ℕ) → k < length numbers.new.items → get_or (ranked_numbers numbers.new.items) k 0 ≤ number) }
    ensures from { OnOk result ((k : ℕ) → k < length numbers.new.items
        → (k < length numbers.old.items) ⊎ (get_or (ranked_numbers numbers.new.items) k 0 ≡ number)) }
{
    if numbers.last().copied() != Some(VertexId(number)) {
        numbers.push(VertexId(number))?;
    }
    Ok(())
}
