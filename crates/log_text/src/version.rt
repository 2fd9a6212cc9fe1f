//! The versions of a log's form.

ghost use Rattle.std.specs.Prelude.{◌≡◌};
ghost use Rattle.log_text.specs.Versions.{matches_community, adds_community, tells_communities, edit_needs_second, needs_second, has_form};

use net_conf::Edit;
use route_policy::{Action, Match};
use sim_event::{Event, News};

/// A version of a log's form.
#[derive(Clone, Copy, Debug, PartialEq, Eq)]
pub enum Version {
    /// Without communities, and without a word for how a router compares MULTI_EXIT_DISC.
    One,
    /// With both. It is the one that is written.
    Two,
}

impl Version {
    /// Whether the version has a form for the command of the event.
    pub fn has_form(self, event: &Event) -> bool
        ensures { result ≡ has_form self event.now }
    {
        match self {
            Version::One => !needs_second(event),
            Version::Two => true,
        }
    }
}

/// Whether its command came with the second version.
fn needs_second(event: &Event) -> bool
    ensures { result ≡ needs_second event.now }
{
    match event {
        Event::Edit(edit) => edit_needs_second(edit),
        Event::Feed(feed) => tells_communities(&feed.news),
        Event::Deliver(_, _) => false,
        Event::Ask(_) => false,
    }
}

/// Whether it adds a rule that asks for a community or adds one, or says how a router compares MULTI_EXIT_DISC.
fn edit_needs_second(edit: &Edit) -> bool
    ensures { result ≡ edit_needs_second edit.now }
{
    match edit {
        Edit::Rule(_, _, _, rule) => matches_community(rule.cond) || adds_community(rule.act),
        Edit::MedAlways(_, _) => true,
        Edit::Router(_, _) | Edit::Virtual(_, _) => false,
        Edit::Link(_, _, _) | Edit::Metric(_, _, _) | Edit::Fail(_, _) | Edit::Mend(_, _) => false,
        Edit::Join(_, _) | Edit::Stop(_, _) | Edit::Start(_, _) => false,
        Edit::Client(_, _, _) | Edit::OwnNext(_, _, _) | Edit::Cluster(_, _) => false,
        Edit::Clear(_, _, _) | Edit::Origin(_, _) | Edit::NoOrigin(_, _) => false,
    }
}

fn matches_community(cond: Match) -> bool
    ensures { result ≡ matches_community cond }
{
    match cond {
        Match::Comm(_) => true,
        Match::Any | Match::Is(_) | Match::Under(_) | Match::Path(_) | Match::First(_) => false,
    }
}

fn adds_community(act: Action) -> bool
    ensures { result ≡ adds_community act }
{
    match act {
        Action::Deny => false,
        Action::Permit(settings) => settings.add.is_some(),
    }
}

fn tells_communities(news: &News) -> bool
    ensures { result ≡ tells_communities news.now }
{
    match news {
        News::Update(route) => !route.comms.numbers().is_empty(),
        News::Withdraw(_) => false,
    }
}
