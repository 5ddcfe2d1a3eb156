//! Lists that contracts see as the list of their items.
//!
//! Every list type of the project is one of two generic types over a `Vec`: [`Items`], which grows
//! item by item, and [`Copies`], which is made whole from a slice. In a clause either is plainly
//! the list of its items, in order, so that two lists with the same items are equal, and a struct
//! of lists is plain data. To the crates above this crate promises just that: each call is exact
//! on the list, and a refusal for want of memory hands back what it was given and changes nothing.
//!
//! Begin with `items`; `copies` is its shorter sister. `faults` has the words in which a refusal says
//! which of several faults it names: the first in the list of all that stand. `specs/Joined` has lists that are joined
//! one after the other up to a limit.
#![tactic(auto)]

mod copies;
mod faults;
mod items;

pub use copies::Copies;
pub use faults::expect;
pub use items::Items;
