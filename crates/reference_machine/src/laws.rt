//! What holds of the definitions. A function here does nothing: a call gives the caller's proof what it ensures.

ghost use Rattle.reference_machine.specs.Advertising.{PeersSendNothing};
ghost use Rattle.reference_machine.specs.Machine.{PeersTellNothing};
ghost use Rattle.reference_machine.specs.Tracing.{LongestMatchLaw, OnwardLaw, TraceLaw, OneTraceLaw};

/// What the definition `trace` gives follows its looks, each router forwarding to the next, until one look ends it; and
/// nothing else does. So its bound on looks is never reached, in any network: no router forwards twice.
pub fn traces_follow_looks()
    ensures follows { TraceLaw }
    ensures only { OneTraceLaw }
{}

/// The prefix by which a router forwards is the longest of all those that contain the address and for which it has
/// chosen a route; there is none just where there is no such prefix.
pub fn longest_match_is_longest()
    ensures law { LongestMatchLaw }
{}

/// The NEXT_HOP of a route that a router has chosen, and that is not its own, has a first hop: what has none is
/// excluded. So a router that has a chosen route forwards by it, or has reached its own prefix, and `onward` is never
/// asked for no hop.
pub fn chosen_routes_lead_onward()
    ensures law { OnwardLaw }
{}

/// What the definitions of choices and adverts say of a virtual peer counts nowhere: it sends nothing by itself, and
/// every question about what it would choose, advertise or forward is refused.
pub fn virtual_peers_decide_nothing()
    ensures sent { PeersSendNothing }
    ensures told { PeersTellNothing }
{}
