//! Cookies: a wait that is begun now and asked about later. By one for everybody a writer gives its retired slots back without ever standing
//! still for readers.
#![tactic(auto)]

mod answers;
mod cookies;
pub mod laws;

pub use answers::Ask;
pub use cookies::{Cookie, ask, give_back, give_some, start};
