//! A pool of attributes: each is kept once, under a number.
#![tactic(auto)]

mod attr_id;
mod feeding;
mod first_hasher;
mod key;
mod pool;

pub use attr_id::AttrId;
pub use pool::Pool;
