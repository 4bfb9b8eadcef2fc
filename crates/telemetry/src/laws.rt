//! Laws of counts.

ghost use Rattle.telemetry.specs.Totals.{IsJoinedCountSum, IsEmptyCountZero, IsCountOneMore, AreSumsOfEvents, IsTextOfEvents};

/// The counts of a list of events: an empty list has none, one more event adds one, and the counts of two lists add
/// up. Does nothing.
pub fn counts_add_up()
    ensures none { IsEmptyCountZero }
    ensures one { IsCountOneMore }
    ensures joined { IsJoinedCountSum }
{}

/// If totals are the counts of a list of events, their sums and their text are those of the list. Does nothing.
pub fn totals_are_counts()
    ensures sums { AreSumsOfEvents }
    ensures text { IsTextOfEvents }
{}
