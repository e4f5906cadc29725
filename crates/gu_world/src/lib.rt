//! Every interleaving of steps: commands are entered while workers look, propose and commit.
#![tactic(auto)]

mod answered;
mod blame;
mod committing;
mod held;
mod kept_outcomes;
mod laws;
mod looks;
mod outcome;
mod outcomes;
mod proposing;
mod running;
mod series;
mod step;
mod stepping;
mod touching;
mod worker;
mod world;

pub use answered::Answered;
pub use blame::culprit;
pub use laws::{
    a_committed_sweep_was_not_overtaken, a_look_stays_true, a_run_is_legal,
    a_stale_commit_has_a_culprit, each_committed_sweep_is_greatest, equal_versions_are_equal_views,
    runs_join,
};
pub use outcome::Outcome;
pub use outcomes::Outcomes;
pub use running::run;
pub use step::Step;
pub use worker::Worker;
pub use world::World;
