//! What holds of the nine filters, whatever the routes. A function here does nothing: a call gives the caller's proof
//! what it ensures.

ghost use Rattle.route_select.specs.Laws.{OneIsLeft, NoneIsLeft, EachIsApplied};

/// The best is the only route that the nine filters leave, where each source's route is its own.
pub fn one_is_left()
    ensures { OneIsLeft }
{}

/// There is no best just where no route is considered.
pub fn none_is_left()
    ensures { NoneIsLeft }
{}

/// No filter is left out of the order in which they are applied.
pub fn each_is_applied()
    ensures { EachIsApplied }
{}
