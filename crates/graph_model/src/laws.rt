//! A law about the definitions, as the contract of a function that does nothing.

ghost use Rattle.graph_model.specs.Refusals.{TellsNamesFirst};

/// A batch that would leave too many names is never refused for its kinds.
pub fn law_names_before_kinds()
    ensures { TellsNamesFirst }
{}
