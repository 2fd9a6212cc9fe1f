//! What becomes of a cell: at a message, and when the configuration changes.

ghost use Rattle.std.specs.Prelude.{◌≡◌, Some, map, IfOk};
ghost use Rattle.std.specs.List.Sorted.{IsStrictlySortedBy};
ghost use Rattle.net_prefix.specs.Address.{addr_cmp};
ghost use Rattle.session_queue.specs.Telling.{prefix_of};
ghost use Rattle.cell_engine.specs.Cells.{IsDecided, delivered, stored, refreshed};
ghost use Rattle.cell_engine.specs.Updates.{ComparesAt, compared};

use crate::route_cell::cell::Cell;
use crate::route_cell::moves::SiteChange;
use crate::route_cell::outcome::Outcome;
use crate::route_cell::sends::{sends_at, sends_compared, sends_of};
use crate::route_cell::standings::{decide, take};
use net_conf::SiteConf;
use net_prefix::{Addr, Prefix};
use route_select::{Chosen, Selector};
use session_queue::Message;
use std::alloc::{AllocError, Global};

/// What a router does with a peer's message of the cell's prefix (RFC 4271, 9): an update replaces the peer's route, a
/// withdrawal removes it, and the router sends what changed. One standing is made; adverts are made only where the best
/// route changed. Want of memory is the only error, here as in the calls below.
#[tactic(auto, unfolding(crate::specs::Cells::delivered))]
pub fn deliver<S: Selector + Drop>(
    alloc: Global,
    site: &SiteConf,
    cell: &Cell<S>,
    from: Addr,
    message: &Message,
) -> Result<Outcome<S>, AllocError>
    requires decided { IsDecided (Some site.now) (prefix_of message.now) cell.now }
    requires peers { IsStrictlySortedBy addr_cmp (map (λ x. x.peer) site.now.sessions) }
    ensures { IfOk result (λ outcome. outcome ≡ delivered site.now cell.now from message.now) }
{
    let received = cell.received.with_news(alloc, from, message)?;
    let mut chosen = choice_at(alloc, site, &cell.chosen)?;
    take(alloc, &mut chosen, site, from, message)?;
    let after = Cell { received, chosen };
    let sends = sends_at(alloc, site, message.prefix(), cell.best(), after.best())?;
    Ok(Outcome { cell: after, sends })
}

/// The choice of a router's cell, to be changed: where it compares otherwise than the router does, no route stands in
/// it, and it is begun anew.
#[tactic(auto, using(crate::proofs::Effective::begun_anew))]
fn choice_at<S: Selector>(alloc: Global, site: &SiteConf, chosen: &S) -> Result<S, AllocError>
    requires { ComparesAt site.now.med_always (S.standings chosen.now) }
    ensures { IfOk result (λ copied. S.standings copied ≡ compared site.now.med_always (S.standings chosen.now)) }
{
    if chosen.med_always() == site.med_always {
        chosen.copy(alloc)
    } else {
        Ok(S::new(alloc, site.med_always))
    }
}

/// What a router does when its site becomes another (RFC 4271, 6 and 8): what it received over sessions that are down
/// is removed, the choice is made anew, and what changed is sent.
#[tactic(auto, unfolding(crate::specs::Cells::refreshed))]
pub fn refresh<S: Selector + Drop>(
    alloc: Global,
    old: &SiteConf,
    new: &SiteConf,
    prefix: Prefix,
    cell: &Cell<S>,
) -> Result<Outcome<S>, AllocError>
    ensures { IfOk result (λ outcome. outcome ≡ refreshed old.now new.now prefix cell.now) }
{
    let received = cell.received.kept_at(alloc, new)?;
    let chosen: S = decide(alloc, new, prefix, &received)?;
    let after = Cell { received, chosen };
    let sends = sends_of(alloc, old, new, prefix, cell.best(), after.best())?;
    Ok(Outcome { cell: after, sends })
}

/// What a router does when its site becomes another, and both were compared. Where settings and sessions stay, and the
/// best routes differ in their costs alone, no advert is made: a cost is advertised to nobody.
#[tactic(auto, unfolding(crate::specs::Cells::refreshed))]
pub fn refresh_compared<S: Selector + Drop>(
    alloc: Global,
    change: &SiteChange<'_>,
    prefix: Prefix,
    cell: &Cell<S>,
) -> Result<Outcome<S>, AllocError>
    requires peers { IsStrictlySortedBy addr_cmp (map (λ x. x.peer) change.now.new.sessions) }
    ensures { IfOk result (λ outcome. outcome ≡ refreshed change.now.old change.now.new prefix cell.now) }
{
    let received = cell.received.kept_at(alloc, change.new)?;
    let chosen: S = decide(alloc, change.new, prefix, &received)?;
    let after = Cell { received, chosen };
    let sends = sends_compared(alloc, change, prefix, cell.best(), after.best())?;
    Ok(Outcome { cell: after, sends })
}

/// What a virtual peer does with a message: it keeps what it receives, decides nothing and sends nothing.
#[tactic(auto, unfolding(crate::specs::Cells::stored))]
pub fn store<S: Selector + Drop>(
    alloc: Global,
    cell: &Cell<S>,
    from: Addr,
    message: &Message,
) -> Result<Outcome<S>, AllocError>
    ensures { IfOk result (λ outcome. outcome ≡ stored cell.now from message.now) }
{
    let received = cell.received.with_news(alloc, from, message)?;
    Ok(Outcome {
        cell: Cell::undecided(alloc, received, false),
        sends: Vec::new(alloc),
    })
}
