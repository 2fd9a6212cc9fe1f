//! What one router has received for one prefix, how each route stands there, and what the router sends when that
//! changes.

mod cell;
mod changes;
mod in_place;
mod keeping;
mod moves;
mod outcome;
mod received_routes;
mod sends;
mod standings;

pub use cell::Cell;
pub use changes::{deliver, refresh, refresh_compared, store};
pub(crate) use in_place::receive_in_entry;
pub use keeping::keep;
pub use moves::{SiteChange, Stays};
pub use outcome::Outcome;
