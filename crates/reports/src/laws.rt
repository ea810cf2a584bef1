//! What the words of a reason speak of.

ghost use Rattle.reports.specs.Laws.{SlotsAreThoseOfTheParts};

/// The slots that a reason counts are those of the parts that its frame becomes, one part after the
/// other.
pub fn slots_are_those_of_the_parts()
    ensures { SlotsAreThoseOfTheParts }
{}
