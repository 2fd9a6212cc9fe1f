//! What an edit leaves on its way.

ghost use Rattle.std.specs.Prelude.{◌≡◌, [], true, false, not, ◌&&◌, if◌then◌else◌};
ghost use Rattle.std.specs.List.{list_any};
ghost use Rattle.net_conf.specs.Configuration.{has_session};
ghost use Rattle.net_conf.specs.Costs.{is_up};
ghost use Rattle.session_queue.specs.Waiting.{queue_at, same_direction};
ghost use Rattle.shared_map.specs.Chunks.{keys_in};
ghost use Rattle.cell_engine.specs.Edits.{is_of};
ghost use Rattle.cell_engine.specs.Queueing.{KeepsPlaces};

use net_conf::{Conf, Ends};
use net_prefix::Addr;
use seq::SharedSeq;
use session_queue::Queues;

/// Removes what is on its way over sessions that are down: the directions with a message are gone through, or where
/// they are many the sessions that are down. It takes no memory.
pub(crate) fn clear_down(queues: &mut Queues, conf: &Conf)
    ensures up { (f t : Addr) → is_up conf.now f t ≡ true → queue_at queues.new f t ≡ queue_at queues.old f t }
    ensures down { (f t : Addr) → has_session conf.now f t ≡ true → is_up conf.now f t ≡ false →
        queue_at queues.new f t ≡ [] }
    ensures empty { (f t : Addr) → queue_at queues.old f t ≡ [] → queue_at queues.new f t ≡ [] }
    ensures spare { KeepsPlaces queues.old queues.new }
    ensures admitted { queues.new.admitted ≡ queues.old.admitted }
{
    let down = conf.down_sessions();
    if clear_found(queues, conf, asked_first(down)) {
        return;
    }
    clear_all(queues, down);
}

/// How many directions with a message are asked first: about one for eight of the sessions in these lists.
fn asked_first(lists: &[SharedSeq<Ends>]) -> usize {
    match lists.first() {
        Some(list) => list.len().saturating_mul(lists.len()) / 8 + 1,
        None => 0,
    }
}

/// Removes what is on its way over sessions that are down, of the first directions with a message, so many at most;
/// whether there were no more.
fn clear_found(queues: &mut Queues, conf: &Conf, most: usize) -> bool
    ensures up { (f t : Addr) → is_up conf.now f t ≡ true → queue_at queues.new f t ≡ queue_at queues.old f t }
    ensures down { result ≡ true → (f t : Addr) → is_up conf.now f t ≡ false → queue_at queues.new f t ≡ [] }
    ensures empty { (f t : Addr) → queue_at queues.old f t ≡ [] → queue_at queues.new f t ≡ [] }
    ensures spare { KeepsPlaces queues.old queues.new }
    ensures admitted { queues.new.admitted ≡ queues.old.admitted }
{
    let mut past = None;
    let mut left = most;
    'walk: while left > 0 {
        let Some((from, to)) = queues.next_full(past) else {
            return true;
        };
        clear_unless_up(queues, conf, from, to);
        past = Some((from, to));
        left -= 1;
    }
    false
}

/// Removes what is on its way in the direction, unless its session is up.
fn clear_unless_up(queues: &mut Queues, conf: &Conf, from: Addr, to: Addr)
    ensures queue { (f t : Addr) → queue_at queues.new f t ≡
        (if not (is_up conf.now from to) && same_direction from to f t then [] else queue_at queues.old f t) }
    ensures spare { KeepsPlaces queues.old queues.new }
    ensures admitted { queues.new.admitted ≡ queues.old.admitted }
{
    if !conf.is_up(from, to) {
        queues.clear(from, to);
    }
}

/// Removes what is on its way over these sessions, which are in lists one after another.
fn clear_all(queues: &mut Queues, lists: &[SharedSeq<Ends>])
    ensures queue { (f t : Addr) →
        queue_at queues.new f t
        ≡ (if list_any (is_of f t) (keys_in lists.now) then [] else queue_at queues.old f t) }
    ensures spare { KeepsPlaces queues.old queues.new }
    ensures admitted { queues.new.admitted ≡ queues.old.admitted }
{
    for list in lists {
        clear_each(queues, list.as_slice());
    }
}

/// Removes what is on its way over these sessions.
fn clear_each(queues: &mut Queues, sessions: &[Ends])
    ensures queue { (f t : Addr) →
        queue_at queues.new f t ≡ (if list_any (is_of f t) sessions.now then [] else queue_at queues.old f t) }
    ensures spare { KeepsPlaces queues.old queues.new }
    ensures admitted { queues.new.admitted ≡ queues.old.admitted }
{
    for ends in sessions {
        clear_both(queues, *ends);
    }
}

/// Removes what is on its way over the session, in both directions.
fn clear_both(queues: &mut Queues, session: Ends)
    ensures queue { (f t : Addr) →
        queue_at queues.new f t ≡ (if is_of f t session then [] else queue_at queues.old f t) }
    ensures spare { KeepsPlaces queues.old queues.new }
    ensures admitted { queues.new.admitted ≡ queues.old.admitted }
{
    queues.clear(session.low, session.high);
    queues.clear(session.high, session.low);
}
