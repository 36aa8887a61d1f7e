//! What no clause says: what seats find out of each other's sections and waits, in one thread and beside each other, for each waiter.
mod beside;
mod moves;
mod quiet;
mod seats;
mod waits;
