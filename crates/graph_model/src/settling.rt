//! Numbers at vertices that are lowered along arcs.

ghost use Rattle.std.specs.Prelude.{◌≡◌, ◌<◌, ◌≤◌, ℕ, List, length, All, sum, true, false};
ghost use Rattle.graph_types.specs.Limits.{most_names};
ghost use Rattle.graph_types.specs.Arcs.{AreWithin, IsLowered, IsClosed};

/// Lowers the number at the end of each arc to at most a step above that at its start, round by round, until none is left
/// to lower. A round is one pass over the arcs.
pub(crate) fn settle(numbers: &mut [u32], arcs: &[(u32, u32)], step: u32)
    requires within { AreWithin (length numbers.old) arcs.now }
    requires few { All (λ number. number ≤ most_names) numbers.old }
    requires step { step ≤ 1 }
    ensures lowered { IsLowered arcs.now step numbers.old numbers.new }
    ensures closed { IsClosed arcs.now step numbers.new }
{
    'rounds: while lower_once(numbers, arcs, step) {}
}

/// One round. Tells whether a number was lowered.
#[tactic(auto, using(crate::proofs::Rounds::arc_round_start, crate::proofs::Rounds::arc_round_kept, crate::proofs::Rounds::arc_round_lowered, crate::proofs::Rounds::arc_round_closed))]
fn lower_once(numbers: &mut [u32], arcs: &[(u32, u32)], step: u32) -> bool
    requires within { AreWithin (length numbers.old) arcs.now }
    requires few { All (λ number. number ≤ most_names) numbers.old }
    requires step { step ≤ 1 }
    ensures few { All (λ number. number ≤ most_names) numbers.new }
    ensures lowered { (first : List ℕ) → IsLowered arcs.now step first numbers.old → IsLowered arcs.now step first numbers.new }
    ensures falls { result ≡ true → sum numbers.new < sum numbers.old }
    ensures closed { result ≡ false → IsClosed arcs.now step numbers.new }
{
    let mut lowered = false;
    for arc in arcs {
        let number = numbers[arc.0 as usize] + step;
        if number < numbers[arc.1 as usize] {
            numbers[arc.1 as usize] = number;
            lowered = true;
        }
    }
    lowered
}
