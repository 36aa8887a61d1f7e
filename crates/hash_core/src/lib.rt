//! The hash dictionary's table as plain data: its words, what each seat knows, the kinds of step, and the rule that holds
//! between any two steps. Of the types here values of `Shape`, `Field` and `Act` are made: clauses and the rule speak of the others.
#![tactic(auto)]

pub mod act;
pub mod laws;
pub mod layout;
pub mod shape;
pub mod view;
pub mod words;

pub use act::Act;
pub use layout::index_of;
pub use shape::Shape;
pub use view::{Hold, Known, SearchState, Section, StepMade, View};
pub use words::{Field, Kind};
