//! What a virtual peer feeds.

ghost use Rattle.std.specs.Prelude.{◌≡◌, true, false, IfOk};
ghost use Rattle.net_conf.specs.Configured.{IsConfigured};
ghost use Rattle.net_conf.specs.Costs.{is_up};
ghost use Rattle.reference_machine.specs.Machine.{has_foreign_first, is_too_long, carries_too_many, feed_refusal, fed_attr, fed_message};

use crate::limits::{MOST_FED_COMMUNITIES, MOST_FED_NUMBERS};
use net_conf::{Conf, Refusal};
use net_prefix::Addr;
use path_attr::{Attr, SharedAttr};
use session_queue::Message;
use sim_event::{FedRoute, Feed, News};
use std::alloc::{AllocError, Global};

/// Whether a fed path does not begin with the feeder's AS.
fn has_foreign_first(conf: &Conf, feeder: Addr, news: &News) -> bool
    ensures { result ≡ has_foreign_first conf.now feeder news.now }
{
    match news {
        News::Update(route) => route.path.neighbour() != conf.as_of(feeder),
        News::Withdraw(_) => false,
    }
}

fn is_too_long(news: &News) -> bool
    ensures { result ≡ is_too_long news.now }
{
    match news {
        News::Update(route) => route.path.number_count() > MOST_FED_NUMBERS,
        News::Withdraw(_) => false,
    }
}

fn carries_too_many(news: &News) -> bool
    ensures { result ≡ carries_too_many news.now }
{
    match news {
        News::Update(route) => route.comms.numbers().len() > MOST_FED_COMMUNITIES,
        News::Withdraw(_) => false,
    }
}

/// Why the feed is refused, if it is. Where the session is up, both ends are there, and are not looked up for that.
pub fn feed_refusal(conf: &Conf, feed: &Feed) -> Option<Refusal>
    ensures { result ≡ feed_refusal conf.now feed.now }
{
    conf.facts();
    if conf.is_up(feed.from, feed.to) {
        refusal_while_up(conf, feed)
    } else {
        refusal_while_down(conf, feed)
    }
}

/// The same, where the session is up.
#[tactic(auto, using(crate::proofs::Ends::feed_tests))]
fn refusal_while_up(conf: &Conf, feed: &Feed) -> Option<Refusal>
    requires configured { IsConfigured conf.now }
    requires up { is_up conf.now feed.now.from feed.now.to ≡ true }
    ensures { result ≡ feed_refusal conf.now feed.now }
{
    if !conf.is_virtual(feed.from) || conf.is_virtual(feed.to) {
        Some(Refusal::BadEnd)
    } else if has_foreign_first(conf, feed.from, &feed.news) {
        Some(Refusal::FirstAs)
    } else if is_too_long(&feed.news) || carries_too_many(&feed.news) {
        Some(Refusal::Limit)
    } else {
        None
    }
}

/// The same, where no session of the two is up.
#[tactic(auto, unfolding(crate::specs::Machine::feed_refusal))]
fn refusal_while_down(conf: &Conf, feed: &Feed) -> Option<Refusal>
    requires { is_up conf.now feed.now.from feed.now.to ≡ false }
    ensures { result ≡ feed_refusal conf.now feed.now }
{
    if !(conf.has_node(feed.from) && conf.has_node(feed.to)) {
        Some(Refusal::NoRouter)
    } else if !conf.is_virtual(feed.from) || conf.is_virtual(feed.to) {
        Some(Refusal::BadEnd)
    } else if !conf.has_session(feed.from, feed.to) {
        Some(Refusal::NoSession)
    } else {
        Some(Refusal::SessionDown)
    }
}

/// The message that is fed: a route has its feeder as next hop. It shares the path and the communities.
pub fn fed_message(alloc: Global, feeder: Addr, news: &News) -> Result<Message, AllocError>
    ensures { IfOk result (λ message. message ≡ fed_message feeder news.now) }
{
    match news {
        News::Update(route) => {
            let attr = SharedAttr::new(alloc, fed_attr(feeder, route)?)?;
            Ok(Message::Update(route.prefix, attr))
        }
        News::Withdraw(prefix) => Ok(Message::Withdraw(*prefix)),
    }
}

/// The attributes of a route that is fed.
fn fed_attr(feeder: Addr, route: &FedRoute) -> Result<Attr, AllocError>
    ensures { IfOk result (λ attr. attr ≡ fed_attr feeder route.now) }
{
    let path = route.path.share()?;
    let comms = route.comms.share()?;
    let mut attr = Attr::plain(feeder);
    attr.path = path;
    attr.origin = route.origin;
    attr.med = route.med;
    attr.comms = comms;
    Ok(attr)
}
