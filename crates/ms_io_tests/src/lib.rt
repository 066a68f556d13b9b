//! The tests of `ms_io`: files and sinks in memory and of the system, and readers and writers that are slow, interrupted
//! or failing. They stand apart because a crate with tests is proved twice; there is no code here but for them.
#![tactic(auto)]

#[cfg(test)]
mod files;
#[cfg(test)]
mod sinks;
