//! Where a change is.

/// The places of the ends of the edge that has changed.
#[derive(Clone, Copy)]
pub struct Ends {
    pub one: usize,
    pub other: usize,
}
