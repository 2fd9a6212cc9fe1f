//! What becomes of a job that is done.

use crate::room::job::Done;
use net_conf::SharedSite;
use net_prefix::Addr;
use path_attr::Attr;
use route_select::Chosen;
use session_queue::Message;
use sim_event::Reply;

/// What became of an outcome.
#[derive(Drop)]
pub enum Committed {
    /// It was put in, with this reply.
    Delivered(Reply),
    /// Something has moved since the job was taken. Nothing was changed.
    Stale(Newer),
}

/// What has moved since a job was taken, the first of these: what the job had, and what is there now.
#[derive(Drop)]
pub enum Newer {
    /// Edits were accepted: the versions.
    ConfMoved {
        had: u64,
        now: u64,
    },
    /// The receiver's site is another.
    SiteMoved {
        had: Option<SharedSite>,
        now: Option<SharedSite>,
    },
    /// The message at the head of the queue is another, or there is none.
    HeadMoved {
        had: Option<Message>,
        now: Option<Message>,
    },
    /// What the receiver has received from the peer is another route, or none.
    CellMoved {
        peer: Addr,
        had: Option<Attr>,
        now: Option<Attr>,
    },
}

/// Out of memory. The outcome is handed back, so this is no `Error`.
#[derive(Drop)]
pub struct CommitFault<S: Chosen> {
    pub done: Done<S>,
}
