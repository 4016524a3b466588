//! The law of a collection's line, as the contract of a function that does nothing.

ghost use Rattle.script_commands.specs.Collected.{TellsWhatIsHeld};

/// What the line of a collection says of the versions that sessions hold, whatever run of the machine of interleavings leads to
/// what the server shows: its floor is the least of the last version's number and all held numbers; recycled are the retired
/// blocks that no held version lists; and left retired are those that a held version lists and the last version doesn't.
pub fn law_collect_line()
    ensures { TellsWhatIsHeld }
{}
