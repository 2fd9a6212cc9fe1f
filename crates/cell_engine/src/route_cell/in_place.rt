//! A message taken into a cell where it stands: of the cell nothing is copied but the sender's standing and the best
//! route, which are shared, so that for want of memory the message can be taken back.

ghost use Rattle.std.specs.Prelude.{◌≡◌, ◌≤◌, [], length, map, None, Some, Ok, IfOk, OnOk, OnErr};
ghost use Rattle.std.specs.Option.{option_copied};
ghost use Rattle.std.specs.List.Sorted.{IsStrictlySortedBy};
ghost use Rattle.net_prefix.specs.declared.addr.Addr as addr;
ghost use Rattle.net_prefix.specs.Address.{addr_cmp};
ghost use Rattle.route_select.specs.Selection.{best_of, standing_from};
ghost use Rattle.session_queue.specs.Telling.{prefix_of};
ghost use Rattle.session_queue.specs.Waiting.{spare_at};
ghost use Rattle.cell_engine.specs.Admitting.{AreAdmitted};
ghost use Rattle.cell_engine.specs.Cells.{IsDecided, delivered, sends_of, standings_by, stored, with_news};
ghost use Rattle.cell_engine.specs.Deliveries.{outcome_by};
ghost use Rattle.cell_engine.specs.InPlace.{ArePeersInOrder, IsHeld, IsKnownIn, forgotten, put_back, sends_with, set_aside};
ghost use Rattle.cell_engine.specs.Queueing.{KeepsMessages};
ghost use Rattle.cell_engine.specs.Senders.{AreInOrder};
ghost use Rattle.cell_engine.specs.Sending.{told};
ghost use Rattle.cell_engine.specs.Updates.{ComparesAt, compared};

use crate::arrival::Arrival;
use crate::route_cell::cell::Cell;
use crate::route_cell::received_routes::ReceivedRoutes;
use crate::route_cell::sends::sends_at;
use crate::sending::make_ready;
use net_conf::SiteConf;
use net_prefix::Addr;
use reference_machine::put_received;
use route_select::{Candidate, Chosen, Reason, Selector, Source, Standing};
use seq::Copied;
use session_queue::{Direction, Message, Queues};
use std::alloc::{AllocError, Global};

/// The best route, shared.
fn shared_best<S: Chosen>(alloc: Global, chosen: &S) -> Result<Option<Candidate>, AllocError>
    ensures { IfOk result (λ best. best ≡ best_of (S.standings chosen.now)) }
{
    match chosen.best() {
        Some(best) => Ok(Some(best.copy(alloc)?)),
        None => Ok(None),
    }
}

/// How the source's route stands, shared.
fn shared_standing<S: Chosen>(
    alloc: Global,
    chosen: &S,
    source: Source,
) -> Result<Option<Standing>, AllocError>
    ensures known { IfOk result (λ had. had ≡ standing_from (S.standings chosen.now) source) }
    ensures held { IfOk result (IsHeld source) }
{
    match chosen.standing(source) {
        Some(standing) => Ok(Some(standing.copy(alloc)?)),
        None => Ok(None),
    }
}

/// Begins the choice anew where it compares otherwise than the router does: then no route stands in it.
#[tactic(auto, using(crate::proofs::Effective::begun_anew))]
fn begin<S: Selector + Drop>(alloc: Global, site: &SiteConf, chosen: &mut S)
    requires { ComparesAt site.now.med_always (S.standings chosen.old) }
    ensures { S.standings chosen.new ≡ compared site.now.med_always (S.standings chosen.old) }
{
    if chosen.med_always() != site.med_always {
        *chosen = S::new(alloc, site.med_always);
    }
}

/// Takes the sender's message into the choice. A route that it withdraws is excluded, and not yet forgotten, so that it
/// can be put back without memory. An error changes nothing.
fn set_aside<S: Selector>(
    alloc: Global,
    chosen: &mut S,
    site: &SiteConf,
    sender: Addr,
    message: &Message,
) -> Result<(), AllocError>
    ensures ok { OnOk result
        (S.standings chosen.new ≡ set_aside site.now sender message.now (S.standings chosen.old)) }
    ensures err { OnErr result (S.standings chosen.new ≡ S.standings chosen.old) }
{
    match message {
        Message::Update(prefix, attr) => match site.session(sender) {
            None => Ok(()),
            Some(from) => put_received(alloc, chosen, site, *prefix, attr, from),
        },
        Message::Withdraw(_) => {
            chosen.put(Source::Peer(sender), Standing::Excluded(Reason::Loop))
        }
    }
}

/// Forgets the route that the message withdraws.
fn forget<S: Selector>(chosen: &mut S, sender: Addr, message: &Message)
    ensures { S.standings chosen.new ≡ forgotten sender message.now (S.standings chosen.old) }
{
    if let Message::Withdraw(_) = message {
        chosen.drop_source(Source::Peer(sender));
    }
}

/// Lets the source stand as it did. It takes no memory.
fn put_back<S: Selector>(chosen: &mut S, source: Source, had: Option<Standing>)
    requires held { IsHeld source had }
    requires known { IsKnownIn source had (S.standings chosen.old) }
    ensures { S.standings chosen.new ≡ put_back source had (S.standings chosen.old) }
{
    match had {
        Some(standing) => match chosen.put(source, standing) {
            Ok(()) => {}
            Err(_) => unreachable!(),
        },
        None => chosen.drop_source(source),
    }
}

/// What the router sends, where each message of it is admitted and has a place.
fn made_ready(
    queues: &mut Queues,
    router: Addr,
    sends: Result<Vec<(Addr, Message)>, AllocError>,
) -> Result<Vec<(Addr, Message)>, AllocError>
    requires { IfOk sends (λ sends. (t : addr.Addr) → length (told t sends.items) ≤ 1) }
    ensures sends { IfOk result (λ ready. sends ≡ Ok ready) }
    ensures queue { KeepsMessages queues.old queues.new }
    ensures room { IfOk result (λ ready.
        (t : addr.Addr) → length (told t ready.items) ≤ spare_at queues.new router t) }
    ensures admitted { IfOk result (λ ready. AreAdmitted queues.new.admitted ready.items) }
{
    let sends = sends?;
    make_ready(queues, router, &sends)?;
    Ok(sends)
}

/// Takes the message into the routes that were received, where what is sent for it is ready. An error changes nothing.
fn receive(
    alloc: Global,
    received: &mut ReceivedRoutes,
    sender: Addr,
    message: &Message,
    ready: Result<Vec<(Addr, Message)>, AllocError>,
) -> Result<Vec<(Addr, Message)>, AllocError>
    ensures ready { IfOk result (λ sends. ready ≡ Ok sends) }
    ensures ok { OnOk result (received.new ≡ with_news sender message.now received.old) }
    ensures err { OnErr result (received.new ≡ received.old) }
{
    let sends = ready?;
    received.take(alloc, sender, message)?;
    Ok(sends)
}

/// Receives the message, decides, and readies what is sent for it: interned attributes and reserved capacity. The
/// choice compares as the router does. An error changes neither the choice nor the routes that were received.
fn receive_and_decide<S: Selector>(
    alloc: Global,
    site: &SiteConf,
    chosen: &mut S,
    received: &mut ReceivedRoutes,
    queues: &mut Queues,
    arrival: &Arrival<'_>,
) -> Result<Vec<(Addr, Message)>, AllocError>
    requires stands { S.standings chosen.old ≡ standings_by site.now (prefix_of arrival.now.message.now) received.old }
    requires peers { IsStrictlySortedBy addr_cmp (map (λ x. x.peer) site.now.sessions) }
    requires order { AreInOrder received.old }
    requires one { (t : addr.Addr) →
        length (told t (sends_with site.now arrival.now.direction.from arrival.now.message.now received.old)) ≤ 1 }
    ensures stands { OnOk result
        (S.standings chosen.new ≡ standings_by site.now (prefix_of arrival.now.message.now)
        (with_news arrival.now.direction.from arrival.now.message.now received.old)) }
    ensures received { OnOk result
        (received.new ≡ with_news arrival.now.direction.from arrival.now.message.now received.old) }
    ensures sends { IfOk result (λ sends.
        sends.items ≡ sends_with site.now arrival.now.direction.from arrival.now.message.now received.old) }
    ensures room { IfOk result (λ sends.
        (t : addr.Addr) → length (told t sends.items) ≤ spare_at queues.new arrival.now.direction.to t) }
    ensures admitted { IfOk result (λ sends. AreAdmitted queues.new.admitted sends.items) }
    ensures queue { KeepsMessages queues.old queues.new }
    ensures stood { OnErr result (S.standings chosen.new ≡ S.standings chosen.old) }
    ensures kept { OnErr result (received.new ≡ received.old) }
{
    let (direction, message) = (arrival.direction, arrival.message);
    let source = Source::Peer(direction.from);
    let had = shared_standing(alloc, chosen, source)?;
    let best = shared_best(alloc, chosen)?;
    set_aside(alloc, chosen, site, direction.from, message)?;
    let sends = sends_at(alloc, site, message.prefix(), best.as_ref(), chosen.best());
    drop(best);
    let ready = made_ready(queues, direction.to, sends);
    match receive(alloc, received, direction.from, message, ready) {
        Ok(sends) => {
            drop(had);
            forget(chosen, direction.from, message);
            Ok(sends)
        }
        Err(fault) => {
            put_back(chosen, source, had);
            Err(fault)
        }
    }
}

/// What a router does with a peer's message of the entry's prefix (RFC 4271, 9), in the RIB entry where it stands: what
/// is sent for it has interned attributes and reserved capacity. An error, which is out of memory, changes nothing.
#[tactic(auto, unfolding(crate::specs::Cells::delivered))]
fn decide_in_entry<S: Selector + Drop>(
    alloc: Global,
    site: &SiteConf,
    cell: &mut Cell<S>,
    queues: &mut Queues,
    direction: Direction,
    message: &Message,
) -> Result<Vec<(Addr, Message)>, AllocError>
    requires decided { IsDecided (Some site.now) (prefix_of message.now) cell.old }
    requires peers { IsStrictlySortedBy addr_cmp (map (λ x. x.peer) site.now.sessions) }
    requires one { (t : addr.Addr) →
        length (told t (delivered site.now cell.old direction.from message.now).sends) ≤ 1 }
    ensures cell { OnOk result (cell.new ≡ (delivered site.now cell.old direction.from message.now).cell) }
    ensures sends { IfOk result (λ sends.
        sends.items ≡ (delivered site.now cell.old direction.from message.now).sends) }
    ensures room { IfOk result (λ sends.
        (t : addr.Addr) → length (told t sends.items) ≤ spare_at queues.new direction.to t) }
    ensures admitted { IfOk result (λ sends. AreAdmitted queues.new.admitted sends.items) }
    ensures queue { KeepsMessages queues.old queues.new }
    ensures same { OnErr result (cell.new ≡ cell.old) }
{
    let _ = cell.received.routes();
    begin(alloc, site, &mut cell.chosen);
    let arrival = Arrival { direction, message };
    receive_and_decide(
        alloc,
        site,
        &mut cell.chosen,
        &mut cell.received,
        queues,
        &arrival,
    )
}

/// What a virtual peer does with a message, in the RIB entry where it stands: it keeps what it receives, and sends
/// nothing. An error, which is out of memory, changes nothing.
#[tactic(auto, unfolding(crate::specs::Cells::stored))]
fn store_in<S: Chosen>(
    alloc: Global,
    cell: &mut Cell<S>,
    sender: Addr,
    message: &Message,
) -> Result<Vec<(Addr, Message)>, AllocError>
    requires { IsDecided None (prefix_of message.now) cell.old }
    ensures cell { OnOk result (cell.new ≡ (stored cell.old sender message.now).cell) }
    ensures sends { IfOk result (λ sends. sends.items ≡ []) }
    ensures same { OnErr result (cell.new ≡ cell.old) }
{
    cell.received.take(alloc, sender, message)?;
    Ok(Vec::new(alloc))
}

/// What the receiver does with a message in its RIB entry, where that stands: a router decides by its configuration, a
/// virtual peer, which has none, keeps what it receives. What is sent has interned attributes and reserved capacity. An
/// error, which is out of memory, changes nothing of the entry.
pub(crate) fn receive_in_entry<S: Selector + Drop>(
    alloc: Global,
    site: Option<&SiteConf>,
    cell: &mut Cell<S>,
    queues: &mut Queues,
    direction: Direction,
    message: &Message,
) -> Result<Vec<(Addr, Message)>, AllocError>
    requires decided { IsDecided (option_copied site) (prefix_of message.now) cell.old }
    requires peers { ArePeersInOrder (option_copied site) }
    requires one { (t : addr.Addr) →
        length (told t (outcome_by (option_copied site) cell.old direction.from message.now).sends) ≤ 1 }
    ensures cell { OnOk result
        (cell.new ≡ (outcome_by (option_copied site.entry) cell.old direction.from message.now).cell) }
    ensures sends { IfOk result (λ sends.
        sends.items ≡ (outcome_by (option_copied site.entry) cell.old direction.from message.now).sends) }
    ensures room { IfOk result (λ sends.
        (t : addr.Addr) → length (told t sends.items) ≤ spare_at queues.new direction.to t) }
    ensures admitted { IfOk result (λ sends. AreAdmitted queues.new.admitted sends.items) }
    ensures queue { KeepsMessages queues.old queues.new }
    ensures same { OnErr result (cell.new ≡ cell.old) }
{
    match site {
        Some(site) => decide_in_entry(alloc, site, cell, queues, direction, message),
        None => store_in(alloc, cell, direction.from, message),
    }
}
