//! The maker of plants: for every number one plant, the same at each run.
//!
//! A number gives a chain of picks. They decide how many crudes, vessels and storage tanks there are, what these hold and
//! what crudes earn; all else is alike in all plants. To the crates above this crate promises that [`make`] gives exactly
//! the plant that is defined of its number, and that nothing is wrong in the plant of any number.
//!
//! Begin with `specs/Made`, which has the plant section by section, `specs/Choices`, which has what the picks decide,
//! and `specs/Picks`. The code follows them: `picks`, `entries`, `operations`, `making`.
#![tactic(auto)]

mod entries;
mod making;
mod operations;
mod picks;

pub use making::{make, maker_laws};
