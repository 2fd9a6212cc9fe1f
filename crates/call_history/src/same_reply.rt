//! Whether two replies are the same.

use crate::same::Same;
use sim_event::{Held, Reply, Report, TraceEnd};

impl Same for Held {
    fn is_same(&self, other: &Held) -> bool {
        self.prefix == other.prefix
            && self.source.is_same(&other.source)
            && self.attr.is_same(&other.attr)
    }
}

impl Same for TraceEnd {
    fn is_same(&self, other: &TraceEnd) -> bool {
        match (self, other) {
            (TraceEnd::Reached(a), TraceEnd::Reached(b)) => a == b,
            (TraceEnd::NoRoute(a), TraceEnd::NoRoute(b)) => a == b,
            (TraceEnd::Loop(a), TraceEnd::Loop(b)) => a == b,
            _ => false,
        }
    }
}

impl Same for Report {
    fn is_same(&self, other: &Report) -> bool {
        match (self, other) {
            (Report::Routes(some), Report::Routes(others)) => some.is_same(others),
            (Report::Best(some), Report::Best(another)) => some.is_same(another),
            (Report::Why(some), Report::Why(others)) => some.is_same(others),
            (Report::Rib(some), Report::Rib(others)) => some.is_same(others),
            (Report::Queue(some), Report::Queue(others)) => some.is_same(others),
            (Report::Quiet(some), Report::Quiet(another)) => some == another,
            (Report::Cost(some), Report::Cost(another)) => some.is_same(another),
            (Report::Trace(hops, end), Report::Trace(others, another)) => {
                hops.is_same(others) && end.is_same(another)
            }
            _ => false,
        }
    }
}

impl Same for Reply {
    fn is_same(&self, other: &Reply) -> bool {
        match (self, other) {
            (Reply::Done, Reply::Done) => true,
            (Reply::Took(p, kind), Reply::Took(q, another)) => p == q && kind == another,
            (Reply::Report(some), Reply::Report(another)) => some.is_same(another),
            (Reply::Refused(some), Reply::Refused(another)) => some == another,
            _ => false,
        }
    }
}
