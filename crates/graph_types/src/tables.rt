//! Laws about levels, labels and core numbers, as contracts of functions that do nothing.

ghost use Rattle.graph_types.specs.Tables.{HaveOneTable, HaveSomeTable};

/// Over any graph and filter each vertex has at most one level from a source, one label and one core number.
pub fn law_one_table()
    ensures { HaveOneTable }
{}

/// Over each content and filter, whatever the limits, each vertex has a level from each source, or none as no walk leads to it, a label
/// and a core number.
pub fn law_some_table()
    ensures { HaveSomeTable }
{}
