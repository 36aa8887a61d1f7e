//! Laws of lists that stand beside shared words: of the views of all seats, and of numbers of slots and places. It has no function to
//! call.
#![tactic(auto)]
