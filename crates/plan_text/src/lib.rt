//! The text of plans, and the ledger of a plan that is legal.
//!
//! A plan is told by a line for each operation: its number in the plan and its name, when it starts and ends, and how
//! much it moves. Its ledger tells how it runs: what each operation draws, what its places hold once it has run, and
//! what each unit gets.
//!
//! To the crates above this crate promises that [`read_plan`] reads the text of a plan as that plan, and any other
//! bytes as the first line that is none of a plan; that [`print_plan`] gives the one text of a plan, and that bytes
//! are read in one way ([`plan_text_laws`]). [`ledger`] gives the ledger exactly of a legal plan, and else names the
//! first rule that is broken; what every ledger tells is in [`ledger_laws`]. [`push_op_line`] adds the one text of a
//! line at the end, or nothing where memory runs out, and [`read_op_line`] answers a line in range of which the bytes
//! are the text, exactly where there is one.
//!
//! Begin with `specs/OpLine` (the words of a line), `specs/Plans` (which operation a line is) and `specs/PlanText`
//! (which bytes are a plan, and which line is the first that is none); then read `op_line` and `plan`. The ledger is
//! in `specs/Ledger`, as a text of the replay, and `ledger_text` writes it while the plan runs.
#![tactic(auto)]

mod fault;
mod laws;
mod ledger_text;
mod op_line;
mod plan;

pub use fault::PlanTextFault;
pub use laws::{ledger_laws, plan_text_laws};
pub use ledger_text::ledger;
pub use op_line::{OpLine, OpLines, push_op_line, read_op_line};
pub use plan::{print_plan, read_plan};
