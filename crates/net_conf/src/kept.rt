//! What is kept over edits beside the tables, each level around the one before, with what holds of it: the tree of each
//! end of a session (`conf_trees`), the sessions that are down (`conf_sessions`), and the sites of the routers that
//! have one (`kept_sites`, around both in `Conf`). An edit goes the same way: `edited` makes the tables and the trees
//! after it, and tells whose trees have moved; `concerned` the sessions that are down then, and whom the edit concerns;
//! `kept_sites` the sites of those.

mod carried;
mod concerned;
mod conf_sessions;
mod conf_trees;
mod down_after;
mod edited;
mod kept_sites;
mod moved_trees;
mod shared_site;
mod site_from;

pub(crate) use concerned::MadeSessions;
pub(crate) use conf_sessions::ConfSessions;
pub use shared_site::SharedSite;
