//! What holds of every run. A function here does nothing: a call gives the caller's proof what it ensures.
#![tactic(auto)]

ghost use Rattle.session_law.specs.RefusalLaw.{RefusalLaw, QuietIsTold};
ghost use Rattle.session_law.specs.RouteLaws.{SendersPathLaw, NeighbourLaw, NextHopLaw, OwnNextHopLaw, NoLoopLaw};
ghost use Rattle.session_law.specs.RouteLaws.{EachHasItsSource, OneIsChosen};
ghost use Rattle.session_law.specs.SessionLaw.{SessionLaw, QuietLaw};

/// Over every session that is up, what a peer has received from a router, with what is on its way put over it in order,
/// is what the router advertises to it now.
/// So where no message is on its way, what the peer has received is it. A virtual peer's feeds are no router's adverts,
/// and the law says nothing of them.
pub fn sessions_agree()
    ensures law { SessionLaw }
    ensures quiet { QuietLaw }
{}

/// Each route that came over a session, received or on its way, has a path that is empty or begins with a sequence:
/// from another AS with one whose first number is the sender's AS; and inside an AS that AS is not in it.
/// Two routes that a router considers have one neighbouring AS just where `same_neighbour` says so, whether or not the
/// router's own AS stands for none.
pub fn paths_begin_with_senders()
    ensures law { SendersPathLaw }
    ensures neighbours { NeighbourLaw }
{}

/// Each route that came from another AS has its sender as NEXT_HOP; inside an AS it has the router that put it there,
/// or a peer of that router in another AS.
/// So a router that gets a route with itself as NEXT_HOP is its ORIGINATOR_ID, and chooses no such route but its own.
pub fn next_hops_are_as_put()
    ensures law { NextHopLaw }
    ensures own { OwnNextHopLaw }
    ensures chosen { NoLoopLaw }
{}

/// Whatever a router has received for a prefix, each route that it considers is its source's own; so where it considers
/// any, the nine filters leave exactly one, and that is its choice.
pub fn one_route_is_chosen()
    ensures sources { EachHasItsSource }
    ensures one { OneIsChosen }
{}

/// Want of memory comes last: an event that the machine refuses is answered by that refusal, whatever memory there is,
/// and changes nothing; and whether all queues are empty is always told.
pub fn want_of_memory_comes_last()
    ensures refused { RefusalLaw }
    ensures quiet { QuietIsTold }
{}
