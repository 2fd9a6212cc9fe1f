//! Sending without memory: a message's attributes are admitted, and there is a place for it, before it goes into its
//! queue.

ghost use Rattle.std.specs.Prelude.{◌≡◌, ◌≤◌, ◌+◌, ◌++◌, true, length, OnOk, OnErr};
ghost use Rattle.session_queue.specs.Waiting.{queue_at, spare_at, IsAdmitted, KeepsAdmitted};
ghost use Rattle.cell_engine.specs.Sending.{told, told_from};
ghost use Rattle.cell_engine.specs.Admitting.{Admits, AreAdmitted, has_attributes};
ghost use Rattle.cell_engine.specs.Queueing.{KeepsMessages, KeepsPlaces};

use net_prefix::Addr;
use session_queue::{Message, Queues};
use std::alloc::AllocError;

/// Sees to it that the message may be sent: an update's attributes are admitted.
pub(crate) fn admit(queues: &mut Queues, message: &Message) -> Result<(), AllocError>
    ensures admitted { OnOk result (IsAdmitted queues.new message.now) }
    ensures admits { OnOk result (Admits message.now queues.old.admitted queues.new.admitted) }
    ensures has { OnErr result (has_attributes message.now ≡ true) }
    ensures err { OnErr result (queues.new ≡ queues.old) }
    ensures keeps { KeepsAdmitted queues.old queues.new }
    ensures queue { KeepsMessages queues.old queues.new }
    ensures spare { KeepsPlaces queues.old queues.new }
{
    match message {
        Message::Update(_, attr) => return queues.admit(attr),
        Message::Withdraw(_) => return Ok(()),
    }
}

/// Sees to it that each message may be sent.
pub(crate) fn admit_all(queues: &mut Queues, sends: &[(Addr, Message)]) -> Result<(), AllocError>
    ensures admitted { OnOk result (AreAdmitted queues.new.admitted sends.now) }
    ensures keeps { KeepsAdmitted queues.old queues.new }
    ensures queue { KeepsMessages queues.old queues.new }
    ensures spare { KeepsPlaces queues.old queues.new }
{
    for send in sends {
        admit(queues, &send.1)?;
    }
    Ok(())
}

/// Sees to it that there is a place for each message, where each goes to a peer of its own.
fn reserve_all(
    queues: &mut Queues,
    router: Addr,
    sends: &[(Addr, Message)],
) -> Result<(), AllocError>
    requires { (t : Addr) → length (told t sends.now) ≤ 1 }
    ensures queue { KeepsMessages queues.old queues.new }
    ensures spare { (f t : Addr) → spare_at queues.old f t ≤ spare_at queues.new f t }
    ensures room { OnOk result ((t : Addr) → length (told t sends.now) ≤ spare_at queues.new router t) }
    ensures admitted { queues.new.admitted ≡ queues.old.admitted }
{
    for send in sends {
        queues.reserve(router, send.0, 1)?;
    }
    Ok(())
}

/// Sees to it that each message may be sent, and has a place, where each goes to a peer of its own.
pub(crate) fn make_ready(
    queues: &mut Queues,
    router: Addr,
    sends: &[(Addr, Message)],
) -> Result<(), AllocError>
    requires { (t : Addr) → length (told t sends.now) ≤ 1 }
    ensures queue { KeepsMessages queues.old queues.new }
    ensures room { OnOk result ((t : Addr) → length (told t sends.now) ≤ spare_at queues.new router t) }
    ensures admitted { OnOk result (AreAdmitted queues.new.admitted sends.now) }
{
    admit_all(queues, sends)?;
    reserve_all(queues, router, sends)
}

/// Sends each message. It takes no memory.
pub(crate) fn push_all(queues: &mut Queues, router: Addr, sends: Vec<(Addr, Message)>)
    requires places { (t : Addr) → length (told t sends.items) ≤ spare_at queues.old router t }
    requires admitted { AreAdmitted queues.old.admitted sends.items }
    ensures queue { (f t : Addr) →
        queue_at queues.new f t ≡ queue_at queues.old f t ++ told_from router sends.items f t }
    ensures spare { (f t : Addr) →
        spare_at queues.new f t + length (told_from router sends.items f t) ≡ spare_at queues.old f t }
    ensures admitted { queues.new.admitted ≡ queues.old.admitted }
{
    for (peer, message) in sends {
        queues.push(router, peer, message);
    }
}
