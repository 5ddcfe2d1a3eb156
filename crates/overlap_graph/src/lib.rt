//! Which operations have nothing to do with each other, and which may never run at one moment.
//!
//! Two operations are independent where they may change places and each still draws what it drew; they may not run at
//! one moment where they share a berth, where one fills what the other draws from, and the like. To the crates above
//! this crate promises both as sets: of each operation the mask of those that are independent of it
//! ([`independent_mask`]), and a list of cliques ([`cliques`]) of which no two members may run at one moment, such that
//! each pair that may not lies in one ([`clique_laws`]).
//!
//! Begin with `specs/Independence` and `specs/Cliques`.
#![tactic(auto)]

mod cover;
mod laws;
mod masks;
mod sets;

pub use cover::{Masks, cliques};
pub use laws::clique_laws;
pub use masks::{independence, independent_mask};
