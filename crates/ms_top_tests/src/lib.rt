//! The tests of the top call, over files and sinks in memory. They stand apart because a crate with tests is proved
//! twice; there is no code here but for them.
#![tactic(auto)]

#[cfg(test)]
mod tests;
