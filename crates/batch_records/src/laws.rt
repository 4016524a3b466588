//! The law of a batch's records, as the contract of a function that does nothing.

ghost use Rattle.batch_records.specs.Texts.{ReadBackAsTheyWere};

/// What [`records_of`](crate::records_of) writes of valid operations reads, by `csv`'s rules and those of `feed_csv`, as these
/// operations, each at its place, and as nothing else.
pub fn law_records_read_back()
    ensures { ReadBackAsTheyWere }
{}
