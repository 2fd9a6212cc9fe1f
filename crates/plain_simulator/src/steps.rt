//! What each kind of event does to the state. A step builds what it needs beside the state, and moves it in at the end.

ghost use Rattle.std.specs.Prelude.{◌≡◌, None, false, map, filter, IfOk, OnOk, OnErr};
ghost use Rattle.net_conf.specs.Costs.{is_up};
ghost use Rattle.net_conf.specs.Edits.{refusal_of};
ghost use Rattle.reference_machine.specs.Network.{with_route, without_route};
ghost use Rattle.reference_machine.specs.Machine.{step, edit_step, with_queues, after_edit, reconfigured, is_kept, emptied, asks_quiet, feed_step, received_after, taken, delivery_step, question_step, Tries};

use crate::queues;
use crate::state::{State, with_sent};
use net_conf::{Conf, Edit, EditedConf, Refusal};
use path_attr::SharedAttr;
use reference_machine::{
    Queue, RouteKey, ask_refusal, delivery_refusal, fed_message, feed_refusal,
};
use route_select::Selector;
use seq::{Copied, Seq, copy_all};
use session_queue::{Direction, Message};
use sim_event::{Ask, Event, Feed, Reply};
use std::alloc::{AllocError, Global};
use std::collections::BTreeMap;
use std::mem::replace;
use std::thread::Threads;

impl State {
    /// Takes an event. Where memory is wanted, nothing has changed.
    pub fn try_step<S: Selector + Drop, R: Threads + Sync>(
        &mut self,
        rt: &R,
        alloc: Global,
        event: &Event,
    ) -> Result<Reply, AllocError>
        ensures tries { Tries (step self.old event.now) self.old result self.new }
        ensures quiet { OnErr result (asks_quiet event.now ≡ false) }
    {
        match event {
            Event::Edit(edit) => self.take_edit::<S, R>(rt, alloc, edit),
            Event::Feed(feed) => self.take_feed(alloc, feed),
            Event::Deliver(from, to) => self.deliver_head::<S>(
                alloc,
                Direction {
                    from: *from,
                    to: *to,
                },
            ),
            Event::Ask(ask) => self.answer::<S>(alloc, ask),
        }
    }

    #[tactic(auto, unfolding(reference_machine::specs::Machine::edit_step))]
    fn take_edit<S: Selector + Drop, R: Threads + Sync>(
        &mut self,
        rt: &R,
        alloc: Global,
        edit: &Edit,
    ) -> Result<Reply, AllocError>
        ensures { Tries (edit_step self.old edit.now) self.old result self.new }
    {
        if let Err(refusal) = self.conf.check(edit) {
            return Ok(Reply::Refused(refusal));
        }
        let later = after_edit(rt, alloc, self, edit)?;
        let after = with_sent::<S>(alloc, self, later)?;
        drop(replace(self, after));
        Ok(Reply::Done)
    }

    #[tactic(auto, unfolding(reference_machine::specs::Machine::feed_step))]
    fn take_feed(&mut self, alloc: Global, feed: &Feed) -> Result<Reply, AllocError>
        ensures { Tries (feed_step self.old feed.now) self.old result self.new }
    {
        if let Some(refusal) = feed_refusal(&self.conf, feed) {
            return Ok(Reply::Refused(refusal));
        }
        let direction = Direction {
            from: feed.from,
            to: feed.to,
        };
        let message = fed_message(alloc, feed.from, &feed.news)?;
        self.queues = queues::with_message(alloc, &self.queues, direction, &message)?;
        Ok(Reply::Done)
    }

    #[tactic(auto, unfolding(reference_machine::specs::Machine::delivery_step))]
    fn deliver_head<S: Selector + Drop>(
        &mut self,
        alloc: Global,
        direction: Direction,
    ) -> Result<Reply, AllocError>
        ensures { Tries (delivery_step self.old direction) self.old result self.new }
    {
        if let Some(refusal) = delivery_refusal(&self.conf, direction) {
            return Ok(Reply::Refused(refusal));
        }
        let Some(messages) = queues::messages_in(&self.queues, direction) else {
            return Ok(Reply::Refused(Refusal::QueueEmpty));
        };
        let [message, ..] = messages else {
            return Ok(Reply::Refused(Refusal::QueueEmpty));
        };
        let reply = Reply::Took(message.prefix(), message.kind());
        let later = taken(alloc, self, direction, message)?;
        let after = with_sent::<S>(alloc, self, later)?;
        drop(replace(self, after));
        Ok(reply)
    }

    #[tactic(auto, unfolding(reference_machine::specs::Machine::question_step))]
    fn answer<S: Selector + Drop>(&mut self, alloc: Global, ask: &Ask) -> Result<Reply, AllocError>
        ensures tries { Tries (question_step self.old ask.now) self.old result self.new }
        ensures quiet { OnErr result (asks_quiet (Event.Ask ask.now) ≡ false) }
    {
        if let Some(refusal) = ask_refusal(&self.conf, ask) {
            return Ok(Reply::Refused(refusal));
        }
        Ok(Reply::Report(self.report::<S>(alloc, ask)?))
    }
}

/// The state after the edit, before anything is sent. The edit is one that is not refused.
fn after_edit<R: Threads + Sync>(
    rt: &R,
    alloc: Global,
    state: &State,
    edit: &Edit,
) -> Result<State, AllocError>
    requires { refusal_of state.now.conf edit.now ≡ None }
    ensures { IfOk result (λ later. later ≡ after_edit state.now edit.now) }
{
    let EditedConf { conf, concerned } = state.conf.made(rt, alloc, edit)?;
    drop(concerned);
    let Ok(queues) = with_queues(alloc, &state.queues, edit) else {
        drop(conf);
        return Err(AllocError);
    };
    reconfigured(alloc, conf, &state.received, queues)
}

/// The state with this configuration: nothing received, and nothing on its way, over a session that is down in it.
#[tactic(auto, unfolding(reference_machine::specs::Machine::reconfigured))]
fn reconfigured(
    alloc: Global,
    conf: Conf,
    received: &BTreeMap<RouteKey, SharedAttr>,
    queues: Vec<Queue>,
) -> Result<State, AllocError>
    ensures { IfOk result (λ later. later ≡ reconfigured conf received.now.entries queues.items) }
{
    let Ok(received) = kept(&conf, received) else {
        drop((conf, queues));
        return Err(AllocError);
    };
    let Ok(queues) = emptied(alloc, &conf, queues) else {
        drop((conf, received));
        return Err(AllocError);
    };
    Ok(State {
        conf,
        received,
        queues,
    })
}

/// What was received over sessions that are up.
fn kept(
    conf: &Conf,
    received: &BTreeMap<RouteKey, SharedAttr>,
) -> Result<BTreeMap<RouteKey, SharedAttr>, AllocError>
    ensures { IfOk result (λ after. after.entries ≡ filter (is_kept conf.now) received.now.entries) }
{
    let mut after = copied(received)?;
    keep(conf, &mut after);
    Ok(after)
}

/// Keeps what was received over sessions that are up.
fn keep(conf: &Conf, received: &mut BTreeMap<RouteKey, SharedAttr>)
    ensures { received.new.entries ≡ filter (is_kept conf.now) received.old.entries }
{
    received.retain(
        |key, _attr|
            ensures kept { result ≡ is_up conf.entry.now key.now.from key.now.to }
            ensures attr { _attr.new ≡ _attr.old }
            ensures conf { conf.exit ≡ conf.entry }
        { conf.is_up(key.from, key.to) },
    );
}

/// What was received, again.
fn copied(
    received: &BTreeMap<RouteKey, SharedAttr>,
) -> Result<BTreeMap<RouteKey, SharedAttr>, AllocError>
    ensures { IfOk result (λ after. after.entries ≡ received.now.entries) }
{
    received.clone()
}

/// The queue, without its messages where the session is down.
fn emptied_one(alloc: Global, conf: &Conf, queue: Queue) -> Queue
    ensures { result ≡ emptied conf.now queue }
{
    if conf.is_up(queue.of.from, queue.of.to) {
        queue
    } else {
        Queue {
            of: queue.of,
            messages: Seq::new(alloc),
        }
    }
}

/// The queues, each without its messages where its session is down.
fn emptied(alloc: Global, conf: &Conf, queues: Vec<Queue>) -> Result<Vec<Queue>, AllocError>
    ensures { IfOk result (λ after. after.items ≡ map (emptied conf.now) queues.items) }
{
    let mut after = Vec::new(alloc);
    for queue in queues {
        after.push(emptied_one(alloc, conf, queue))?;
    }
    Ok(after)
}

/// The queues, with those that the edit adds.
fn with_queues(alloc: Global, queues: &[Queue], edit: &Edit) -> Result<Vec<Queue>, AllocError>
    ensures { IfOk result (λ more. more.items ≡ with_queues edit.now queues.now) }
{
    match *edit {
        Edit::Join(one, other) => {
            let back = Direction {
                from: other,
                to: one,
            };
            let more = queues::with_direction(alloc, queues, back)?;
            let forth = Direction {
                from: one,
                to: other,
            };
            queues::with_direction(alloc, &more, forth)
        }
        _ => copy_all(alloc, queues),
    }
}

/// What was received, once the message has been taken.
fn received_after(
    received: &BTreeMap<RouteKey, SharedAttr>,
    direction: Direction,
    message: &Message,
) -> Result<BTreeMap<RouteKey, SharedAttr>, AllocError>
    ensures { IfOk result (λ after. after.entries ≡ received_after direction message.now received.now.entries) }
{
    let key = RouteKey {
        to: direction.to,
        prefix: message.prefix(),
        from: direction.from,
    };
    match message {
        Message::Update(_, attr) => with_route(received, key, attr.share()?),
        Message::Withdraw(_) => without_route(received, key),
    }
}

/// What was received, with this route in place of any of its key.
fn with_route(
    received: &BTreeMap<RouteKey, SharedAttr>,
    key: RouteKey,
    attr: SharedAttr,
) -> Result<BTreeMap<RouteKey, SharedAttr>, AllocError>
    ensures { IfOk result (λ after. after.entries ≡ with_route key attr received.now.entries) }
{
    let mut after = copied(received)?;
    put(&mut after, key, attr)?;
    Ok(after)
}

/// What was received, without the route of the key.
fn without_route(
    received: &BTreeMap<RouteKey, SharedAttr>,
    key: RouteKey,
) -> Result<BTreeMap<RouteKey, SharedAttr>, AllocError>
    ensures { IfOk result (λ after. after.entries ≡ without_route key received.now.entries) }
{
    let mut after = copied(received)?;
    after.remove(&key);
    Ok(after)
}

fn put(
    received: &mut BTreeMap<RouteKey, SharedAttr>,
    key: RouteKey,
    attr: SharedAttr,
) -> Result<(), AllocError>
    ensures { OnOk result (received.new.entries ≡ with_route key attr received.old.entries) }
{
    received.insert(key, attr)?;
    Ok(())
}

/// The state once the message at the head has been taken, before anything is sent.
#[tactic(auto, unfolding(reference_machine::specs::Machine::taken))]
fn taken(
    alloc: Global,
    state: &State,
    direction: Direction,
    message: &Message,
) -> Result<State, AllocError>
    ensures { IfOk result (λ after. after ≡ taken state.now direction message.now) }
{
    let conf = state.conf.copy(alloc)?;
    let Ok(received) = received_after(&state.received, direction, message) else {
        drop(conf);
        return Err(AllocError);
    };
    let Ok(queues) = queues::without_head(alloc, &state.queues, direction) else {
        drop((conf, received));
        return Err(AllocError);
    };
    Ok(State {
        conf,
        received,
        queues,
    })
}
