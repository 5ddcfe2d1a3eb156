//! What becomes of a plant's crude as a plan runs, and whether the plan is legal.
//!
//! A plan is a list of operations, each at its time and with its volume. They run one after the other in the
//! order of the list: each draws from its source by the draw rule and fills its destination. Eleven rules are asked
//! of each operation, by itself, after the operations before it, or on the state that they leave; three more are
//! asked of every place at the end. A plan that breaks none is legal, and its margin is what its charges earn,
//! less what its vessels pay for waiting.
//!
//! To the crates above this crate promises that [`Replay`] and [`replay`] name the first broken rule exactly, and
//! give exactly the draws, the amounts, the counts and the margin of `specs/State`, `specs/Counts` and
//! `specs/Margin`; that a step which is refused changes nothing, and that steps take no memory. [`legal_plan_laws`]
//! has what is so of all legal operations. `specs/Claim` says what may be claimed of a plant and its plans.
//!
//! Begin with `specs/Rules` and `specs/Legal`, and then with `running`, where a replay keeps besides the state what
//! the next operation is asked about: when each operation started and ended last, and a tally of each
//! place. `order` has the two orders that operations may have to keep, that of a plan and that of a slot word.
#![tactic(auto)]

mod broken;
mod end_rules;
mod latest;
mod laws;
mod order;
mod outcome;
mod own_rules;
mod planned;
mod running;
mod state;
mod state_rules;
mod tally;
mod timed;

pub use broken::Broken;
pub use laws::legal_plan_laws;
pub use order::Order;
pub use outcome::{Outcome, ReplayFault, replay, replay_in};
pub use planned::Planned;
pub use running::Replay;
pub use timed::{AmountList, Plan, Timed, Word};
