//! Tables by the address of their router.

mod entries;
pub(crate) mod places;
mod tables;

pub use tables::RouterTables;
