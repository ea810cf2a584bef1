//! What the definitions say of every text.

ghost use Rattle.history.specs.Listing.{AtMostOneListing, ReadsBack};

/// Two listings of the same bytes are equal.
pub fn no_text_has_two_listings()
    ensures { AtMostOneListing }
{}

/// The text of a history is listed as its events, and nothing is left.
pub fn a_history_lists_its_events()
    ensures { ReadsBack }
{}
