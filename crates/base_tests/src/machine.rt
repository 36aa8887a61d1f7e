//! What no clause says: what callers are told in given orders of steps. By which numbers is said by rows of `tool_rows`.

mod runs;
