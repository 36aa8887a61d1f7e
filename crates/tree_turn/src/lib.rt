//! A turn: a node of the tree and its child change places, under three locks and by one store.
#![tactic(auto)]

mod loads;
mod locks;
mod replacing;
mod turn;
mod turning;

pub use turn::{Content, NodeWords, Turn, TurnWords};
pub use turning::make_turn;
