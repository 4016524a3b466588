//! Laws of versions.

ghost use Rattle.std.specs.Prelude.{List};
ghost use Rattle.graph_types.specs.Graph.{Graph};
ghost use Rattle.graph_types.specs.Limits.{LimitsView, AreLimits};
ghost use Rattle.edge_block.specs.Slots.{BlockView};
ghost use Rattle.graph_version.specs.Rows.{blocks_of};
ghost use Rattle.graph_version.specs.Versions.{AreRowsOf, IsVersion, empty_version, empty_version_in};
ghost use Rattle.graph_version.specs.Edges.{AreEachOnce, edges_in_blocks};

/// The blocks of rows that have a graph's edges by look-up list each of its edges once, and no others.
#[tactic(auto, using(crate::proofs::Shown::rows_each_once))]
pub fn law_rows_each_once()
    ensures { (g : Graph) (rows : List (List BlockView)) → AreRowsOf g rows → AreEachOnce (edges_in_blocks (blocks_of rows)) g }
{}

/// What is true of every version is true of the one without batches, under the standard limits and under any others.
#[tactic(auto, using(crate::proofs::Empty::is_empty_version, crate::proofs::Empty::is_empty_version_in))]
pub fn law_empty_version()
    ensures standard { IsVersion empty_version }
    ensures any { (limits : LimitsView) → AreLimits limits → IsVersion (empty_version_in limits) }
{}
