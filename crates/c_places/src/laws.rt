//! What holds of the places of every function.

ghost use Rattle.c_places.specs.Laws.{CountsAll, StaysInside, GoesOn, FindsEach, FindsNoOther};

/// A function has a place for its entry, those of its body, and one for the implied return.
pub fn all_places_are_counted()
    ensures { CountsAll }
{}

/// From each place it goes on to places of the function, and from each place but a loop's end to
/// greater numbers only.
pub fn flow_goes_on()
    ensures inside { StaysInside }
    ensures on { GoesOn }
{}

/// The kind and the number of a place lead back to it, and to no other place.
pub fn kind_and_number_tell_a_place()
    ensures each { FindsEach }
    ensures no_other { FindsNoOther }
{}
