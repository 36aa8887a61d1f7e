//! The tree's three ways to wait for readers: by the key and the stamp of each, by counts of them in the class of their key, and by the
//! stamps of each by class.
#![tactic(auto)]

mod deer;
mod domain;
mod eer;
mod image;
pub mod laws;

pub use deer::Deer;
pub use domain::Domain;
pub use eer::Eer;
