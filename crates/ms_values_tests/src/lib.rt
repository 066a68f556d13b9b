//! The tests of `ms_values`: each call once, with ample memory.
#![tactic(auto)]

#[cfg(test)]
mod lists;
#[cfg(test)]
mod operands;
#[cfg(test)]
mod values;
