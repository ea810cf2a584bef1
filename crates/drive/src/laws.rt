//! What holds of every plan.

ghost use Rattle.drive.specs.Laws.{AtMostOnePlan};

/// A plan makes one list of events.
pub fn a_plan_makes_one_list()
    ensures { AtMostOnePlan }
{}
