//! Whether two events are the same.

use crate::same::Same;
use net_conf::Edit;
use route_policy::{Action, Match, Rule};
use sim_event::{Ask, Event, FedRoute, Feed, News};

impl Same for Match {
    fn is_same(&self, other: &Match) -> bool {
        self == other
    }
}

impl Same for Action {
    fn is_same(&self, other: &Action) -> bool {
        self == other
    }
}

impl Same for Rule {
    fn is_same(&self, other: &Rule) -> bool {
        self.cond.is_same(&other.cond) && self.act.is_same(&other.act)
    }
}

impl Same for Edit {
    // Rules are compared apart: all at once is too much for the prover's search.
    fn is_same(&self, other: &Edit) -> bool {
        match (self, other) {
            (Edit::Rule(a, b, side, rule), Edit::Rule(c, d, other, another)) => {
                a == c && b == d && side == other && rule.is_same(another)
            }
            (Edit::Rule(_, _, _, _), _) => false,
            _ => self == other,
        }
    }
}

impl Same for FedRoute {
    fn is_same(&self, other: &FedRoute) -> bool {
        self.prefix == other.prefix
            && self.path.is_same(&other.path)
            && self.origin == other.origin
            && self.med == other.med
            && self.comms == other.comms
    }
}

impl Same for News {
    fn is_same(&self, other: &News) -> bool {
        match (self, other) {
            (News::Update(route), News::Update(another)) => route.is_same(another),
            (News::Withdraw(p), News::Withdraw(q)) => p == q,
            _ => false,
        }
    }
}

impl Same for Feed {
    fn is_same(&self, other: &Feed) -> bool {
        self.from == other.from && self.to == other.to && self.news.is_same(&other.news)
    }
}

impl Same for Ask {
    fn is_same(&self, other: &Ask) -> bool {
        self == other
    }
}

impl Same for Event {
    fn is_same(&self, other: &Event) -> bool {
        match (self, other) {
            (Event::Edit(edit), Event::Edit(another)) => edit.is_same(another),
            (Event::Feed(feed), Event::Feed(another)) => feed.is_same(another),
            (Event::Deliver(a, b), Event::Deliver(c, d)) => a == c && b == d,
            (Event::Ask(ask), Event::Ask(another)) => ask.is_same(another),
            _ => false,
        }
    }
}
