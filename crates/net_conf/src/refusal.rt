//! Why a command is refused.

ghost use Rattle.std.specs.Prelude.{◌≡◌};
ghost use Rattle.net_conf.specs.Refusals.{number_of, name_of};

/// Why a command is refused, in the order in which the tests are made.
#[derive(Clone, Copy, Debug, PartialEq, Eq)]
pub enum Refusal {
    /// The line spells no command.
    Syntax = 1,
    /// A router or peer that the command names is not there.
    NoRouter = 2,
    /// The address is taken.
    RouterExists = 3,
    /// Both ends are one.
    SameRouter = 4,
    /// A virtual peer where a router is needed, or the reverse; two virtual ends.
    BadEnd = 5,
    /// A virtual peer would be linked or joined within its own AS.
    VirtualInside = 6,
    /// There is no such link.
    NoLink = 7,
    /// The link is there already.
    LinkExists = 8,
    /// Ends in different ASes without a link.
    NotLinked = 9,
    /// There is no such session.
    NoSession = 10,
    /// The session is there already.
    SessionExists = 11,
    /// The command is for internal sessions.
    InternalOnly = 12,
    /// The setting is not allowed on this session.
    RuleNotAllowed = 13,
    /// The prefix is originated already.
    OriginExists = 14,
    /// The prefix is not originated.
    NoOrigin = 15,
    /// The session is down.
    SessionDown = 16,
    /// No message waits.
    QueueEmpty = 17,
    /// A fed path does not begin with the feeder's AS.
    FirstAs = 18,
    /// A limit of the simulator.
    Limit = 19,
    /// Memory was refused.
    Memory = 20,
}

impl Refusal {
    /// Its number, 1 to 20.
    pub fn number(self) -> u8
        ensures { result ≡ number_of self }
    {
        self as u8
    }

    /// Its name, as it is printed.
    pub fn name(self) -> &'static str
        ensures { result.now ≡ name_of self }
    {
        match self {
            Refusal::Syntax => "syntax",
            Refusal::NoRouter => "no-router",
            Refusal::RouterExists => "router-exists",
            Refusal::SameRouter => "same-router",
            Refusal::BadEnd => "bad-end",
            Refusal::VirtualInside => "virtual-inside",
            Refusal::NoLink => "no-link",
            Refusal::LinkExists => "link-exists",
            Refusal::NotLinked => "not-linked",
            Refusal::NoSession => "no-session",
            Refusal::SessionExists => "session-exists",
            Refusal::InternalOnly => "internal-only",
            Refusal::RuleNotAllowed => "rule-not-allowed",
            Refusal::OriginExists => "origin-exists",
            Refusal::NoOrigin => "no-origin",
            Refusal::SessionDown => "session-down",
            Refusal::QueueEmpty => "queue-empty",
            Refusal::FirstAs => "first-as",
            Refusal::Limit => "limit",
            Refusal::Memory => "memory",
        }
    }
}
