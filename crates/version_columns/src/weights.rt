//! The weights that come into vertices.

ghost use Rattle.std.specs.Prelude.{◌≡◌, ◌+◌, ◌+ℤ◌, ◌<◌, ◌^◌, pos, nat_abs, length, replicate, slice_index_or, slice_set};
ghost use Rattle.graph_version.specs.Versions.{IsVersion, content};
ghost use Rattle.version_columns.specs.Tables.{in_weights, WritesWeightsIn};

use crate::views::{ColumnError, View, filter_of};
use graph_types::Filter;
use graph_version::Version;
use graph_walks::passes;

/// Adds a weight to that of a vertex.
fn add_weight(weights: &mut [i64], vertex: u32, weight: i64)
    requires there { vertex < length weights.old }
    requires room { nat_abs (slice_index_or weights.old vertex (pos 0)) + nat_abs weight < 2 ^ 63 }
    ensures { weights.new ≡ slice_set weights.old vertex (slice_index_or weights.old vertex (pos 0) +ℤ weight) }
{
    weights[vertex as usize] += weight;
}

/// Adds the weight of each edge that a view lets through to that of its target.
fn add_weights(version: &Version, view: &Filter, weights: &mut [i64])
    requires version { IsVersion version.now }
    requires none { weights.old ≡ replicate (length (content version.now).names) (pos 0) }
    ensures { weights.new ≡ in_weights view.now (content version.now) }
{
    for edge in version.edges() {
        if passes(view, &edge) {
            add_weight(weights, edge.target.0, edge.weight);
        }
    }
}

/// Writes for each vertex the sum of the weights of the edges of the view that enter it: a loop does so too. It takes one look at
/// each edge, and no memory. `NoKind`, or `BadLength`.
pub fn write_weights_in(
    version: &Version,
    view: &View,
    weights: &mut [i64],
) -> Result<(), ColumnError>
    ensures { WritesWeightsIn (content version.now) view.now weights.old weights.new result }
{
    let Some(filter) = filter_of(version, view) else {
        return Err(ColumnError::NoKind);
    };
    if weights.len() != version.names().len() {
        return Err(ColumnError::BadLength);
    }
    weights.fill(0);
    add_weights(version, &filter, weights);
    Ok(())
}
