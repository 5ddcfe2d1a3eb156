//! The program's one call: words in, files read, text written, status out.
//!
//! [`run`] reads the words, reads the files that they name from a shelf, does the work and writes its
//! text into a sink. Its contract is the whole promise of the program. Begin with `specs/Answered.antt`:
//! `Answered` says how a run ends, `CallsFor` what the words call for, and `Serves` what a command
//! answers by its files. What `solve` owes of a plant is in `specs/Solving.antt`: an accepted dossier,
//! what it claims, and that it keeps the budget of inner nodes (`leaf_value`); how thorough its search was is in
//! `specs/Thorough.antt`, how its workers came to the tree in `specs/Worked.antt`. What `check` owes of a dossier is in
//! `specs/Checking.antt`, what `replay` owes of a plan and `show` of a plant in `specs/Replaying.antt`, what `make` owes
//! of a number in `specs/Making.antt`. That no fault of the shelf or the sink stays hidden is in `specs/Hidden.antt`.
//! From there the way leads down to plans, boxes and their values. The search itself is `search_team`, and of the
//! notes of its workers `search_gather` makes a tree; `search` puts both together, and `conclude` makes a dossier of it.
#![tactic(auto)]

mod answer;
mod calls;
mod check;
mod conclude;
mod files;
mod first_plan;
mod make;
mod opening;
mod replay;
mod search;
mod send;
mod show;
mod solve;
mod status;

pub use answer::Answer;
pub use calls::run;
pub use check::check_files;
pub use make::make_text;
pub use replay::{replay_files, replay_laws};
pub use show::show_file;
pub use solve::{solve_alone, solve_file, solve_file_alone};
pub use status::{
    ACCEPTED, ILLEGAL, INFEASIBLE, LEGAL, MADE, NO_MEMORY, NONE_FOUND, NOT_ACCEPTED, PLAN_FOUND,
    PLAN_REFUSED, PLANT_REFUSED, READ_FAILED, SHOWN, Status, TOO_LONG, WORDS_REFUSED, WRITE_FAILED,
};
