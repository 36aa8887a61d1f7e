//! The tree's calls run one step at a time, by a given order of callers. One step is one atomic step of one caller, on the words of the
//! first waiter. The laws say that whatever the order is, the tree's invariant holds and what the callers were told is explained; that a
//! lookup waits for nobody; and for how many steps of its owner's a section or the front is held. Scripts run so by callers that are drawn
//! from a number.
#![tactic(auto)]

mod acting;
mod blocking;
pub mod caller;
mod choosing;
mod going;
pub mod laws;
mod machine;
mod moving;
mod plan;
mod scheduling;
pub mod stepping;

pub use caller::Caller;
pub use machine::{Machine, Stepped};
pub use scheduling::{Scheduled, run_scripts};
pub use stepping::step_caller;
