//! A route with marks of its path's numbers: by them a rule about an AS mostly sees at once that a long path does not
//! hold it.

ghost use Rattle.std.specs.Prelude.{◌≡◌, false};
ghost use Rattle.path_attr.specs.Path.{holds};
ghost use Rattle.route_policy.specs.Judging.{matches};

use crate::marks::Marks;
use crate::rule::Match;
use net_prefix::Prefix;
use path_attr::{Asn, Attr};
use std::marker::Model;

/// A route's attributes, with marks of the numbers of its path.
#[derive(Drop)]
pub(crate) struct MarkedRoute<'a> {
    attr: &'a Attr,
    marks: Marks,
}

impl<'a> Model for MarkedRoute<'a> {
    ghost use Rattle.path_attr.specs.declared.attr.Attr.{Attr};
    ghost use Rattle.route_policy.specs.Marks.{AreMarked};

    ghost Value = { Attr };

    ghost view = { λ r. r.attr.now };

    ghost invariant = { λ r. AreMarked r.attr.now.path r.marks.words };
}

impl<'a> MarkedRoute<'a> {
    /// The route with these attributes.
    pub(crate) fn of(attr: &'a Attr) -> Self
        ensures { result ≡ attr.now }
    {
        let mut marks = Marks::new();
        marks.add_path(attr.path.segments());
        MarkedRoute { attr, marks }
    }

    /// Whether it is one of those that the rule is about, as a route to the prefix.
    pub(crate) fn matches(&self, cond: Match, prefix: Prefix) -> bool
        ensures { result ≡ matches cond prefix self.now }
    {
        match cond {
            Match::Path(asn) => self.is_marked(asn) && self.attr.path.holds(asn),
            _ => cond.matches(prefix, self.attr),
        }
    }

    /// Whether the number's marks are set, as those of each number of the path are.
    fn is_marked(&self, asn: Asn) -> bool
        ensures { result ≡ false → holds asn self.now.path ≡ false }
    {
        self.marks.has(asn)
    }
}
