//! What holds of configurations. A function here does nothing: a call gives the caller's proof what it ensures.

ghost use Rattle.net_conf.specs.Laws.{PeersAreInOrder, PeersHaveSessions, SitesAreOfTheirRouters, SiteSessionsAreInOrder, SitesHaveSessions, SitesKnowSessionsUp, OriginsAreListed};
ghost use Rattle.net_conf.specs.Scopes.{SitesOfOthersStay, SessionsStay, AreRoutersBefore, AreRoutersAfter, OriginsAloneChange, OtherOriginsStay};

/// The peers of a router are in order of address, and are those with which it has a session.
pub fn peers_are_those_of_sessions()
    ensures in_order { PeersAreInOrder }
    ensures sessions { PeersHaveSessions }
{}

/// A site is its router's, and has its sessions, in order of the peers' addresses, each up where it is by the
/// configuration.
pub fn sites_are_of_routers()
    ensures address { SitesAreOfTheirRouters }
    ensures in_order { SiteSessionsAreInOrder }
    ensures sessions { SitesHaveSessions }
    ensures up { SitesKnowSessionsUp }
{}

/// The prefixes that are listed for a router are those that it originates.
pub fn origins_are_listed()
    ensures law { OriginsAreListed }
{}

/// An edit of one router's settings, or of what it originates, leaves all other sites, and all sessions up or down.
/// Where it is not refused, the one is a router.
pub fn edits_keep_their_scope()
    ensures others { SitesOfOthersStay }
    ensures sessions { SessionsStay }
    ensures before { AreRoutersBefore }
    ensures after { AreRoutersAfter }
    ensures settings { OriginsAloneChange }
    ensures origins { OtherOriginsStay }
{}
