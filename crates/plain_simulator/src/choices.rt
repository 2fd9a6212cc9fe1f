//! What a router chose for each prefix before an event, and what it chooses after it: worked out once for all its
//! peers.

ghost use Rattle.std.specs.Prelude.{◌≡◌, map, IfOk};
ghost use Rattle.std.specs.List.{filter_map};
ghost use Rattle.net_conf.specs.Sites.{site_of};
ghost use Rattle.plain_simulator.specs.Choices.{prefix_choices, router_choices, AreChoices, message_of, messages_of};

use crate::state::{State, prefixes_of};
use net_conf::SiteConf;
use net_prefix::{Addr, Prefix};
use reference_machine::{advert_of, change_of};
use route_select::{Candidate, Selector};
use seq::{Seq, push_some};
use session_queue::Message;
use std::alloc::{AllocError, Global};

/// A router's choice for a prefix, before and after.
#[derive(Drop)]
pub struct PrefixChoices {
    pub prefix: Prefix,
    pub old: Option<Candidate>,
    pub new: Option<Candidate>,
}

/// A router's site and choices, before and after.
#[derive(Drop)]
pub struct RouterChoices {
    pub router: Addr,
    pub old_site: Option<SiteConf>,
    pub new_site: Option<SiteConf>,
    pub by_prefix: Seq<PrefixChoices>,
}

/// A router's site, before and after.
#[derive(Drop)]
struct SiteChange {
    old: Option<SiteConf>,
    new: Option<SiteConf>,
}

/// The router's site, before and after.
fn site_change(
    alloc: Global,
    earlier: &State,
    later: &State,
    router: Addr,
) -> Result<SiteChange, AllocError>
    ensures old { IfOk result (λ site. site.old ≡ site_of earlier.now.conf router) }
    ensures new { IfOk result (λ site. site.new ≡ site_of later.now.conf router) }
{
    let old = earlier.conf.site_at(alloc, router)?;
    let Ok(new) = later.conf.site_at(alloc, router) else {
        drop(old);
        return Err(AllocError);
    };
    Ok(SiteChange { old, new })
}

/// The router's choices for these prefixes, before and after.
fn choices_for<S: Selector + Drop>(
    alloc: Global,
    earlier: &State,
    later: &State,
    site: &SiteChange,
    router: Addr,
    prefixes: &[Prefix],
) -> Result<Vec<PrefixChoices>, AllocError>
    requires old { site.now.old ≡ site_of earlier.now.conf router }
    requires new { site.now.new ≡ site_of later.now.conf router }
    ensures { IfOk result (λ choices. choices.items ≡ map (prefix_choices earlier.now later.now router) prefixes.now) }
{
    let mut choices = Vec::new(alloc);
    for prefix in prefixes {
        let old = earlier.best_at::<S>(alloc, &site.old, router, *prefix)?;
        let new = later.best_at::<S>(alloc, &site.new, router, *prefix)?;
        choices.push(PrefixChoices {
            prefix: *prefix,
            old,
            new,
        })?;
    }
    Ok(choices)
}

/// The router's site and choices, before and after.
#[tactic(auto, unfolding(crate::specs::Choices::router_choices))]
fn router_choices<S: Selector + Drop>(
    alloc: Global,
    earlier: &State,
    later: &State,
    router: Addr,
) -> Result<RouterChoices, AllocError>
    ensures { IfOk result (λ choices. choices ≡ router_choices earlier.now later.now router) }
{
    let site = site_change(alloc, earlier, later, router)?;
    let Ok(prefixes) = prefixes_of(alloc, earlier, later, router) else {
        drop(site);
        return Err(AllocError);
    };
    let Ok(choices) = choices_for::<S>(alloc, earlier, later, &site, router, &prefixes) else {
        drop(site);
        return Err(AllocError);
    };
    let SiteChange { old, new } = site;
    Ok(RouterChoices {
        router,
        old_site: old,
        new_site: new,
        by_prefix: Seq::of(choices),
    })
}

/// The router's site and choices: those that are kept, if they are this router's.
pub fn choices_at<S: Selector + Drop>(
    alloc: Global,
    earlier: &State,
    later: &State,
    kept: Option<RouterChoices>,
    router: Addr,
) -> Result<RouterChoices, AllocError>
    requires { AreChoices earlier.now later.now kept }
    ensures { IfOk result (λ choices. choices ≡ router_choices earlier.now later.now router) }
{
    match kept {
        Some(choices) if choices.router == router => Ok(choices),
        _ => router_choices::<S>(alloc, earlier, later, router),
    }
}

/// The message that the choices for a prefix take, if they take one.
fn message_of(
    alloc: Global,
    was_up: bool,
    is_up: bool,
    choices: &RouterChoices,
    to: Addr,
    choice: &PrefixChoices,
) -> Result<Option<Message>, AllocError>
    ensures { IfOk result (λ message. message ≡ message_of was_up is_up choices.now to choice.now) }
{
    let old_site = choices.old_site.as_ref();
    let new_site = choices.new_site.as_ref();
    let old = advert_of(
        alloc,
        was_up,
        old_site,
        to,
        choice.prefix,
        choice.old.as_ref(),
    )?;
    let new = advert_of(
        alloc,
        is_up,
        new_site,
        to,
        choice.prefix,
        choice.new.as_ref(),
    )?;
    Ok(change_of(choice.prefix, old, new))
}

/// A message for each prefix at which what the router advertises to the peer changes.
pub fn messages_of(
    alloc: Global,
    was_up: bool,
    is_up: bool,
    choices: &RouterChoices,
    to: Addr,
) -> Result<Vec<Message>, AllocError>
    ensures { IfOk result (λ messages. messages.items ≡ messages_of was_up is_up choices.now to) }
{
    messages_for(
        alloc,
        was_up,
        is_up,
        choices,
        choices.by_prefix.as_slice(),
        to,
    )
}

/// The messages of these choices.
fn messages_for(
    alloc: Global,
    was_up: bool,
    is_up: bool,
    choices: &RouterChoices,
    each: &[PrefixChoices],
    to: Addr,
) -> Result<Vec<Message>, AllocError>
    ensures { IfOk result (λ messages. messages.items ≡ filter_map (message_of was_up is_up choices.now to) each.now) }
{
    let mut messages = Vec::new(alloc);
    for choice in each {
        let message = message_of(alloc, was_up, is_up, choices, to, choice)?;
        push_some(&mut messages, message)?;
    }
    Ok(messages)
}
