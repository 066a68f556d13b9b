//! The table of types in code: the tests of `ms_rows`, in a crate of their own, so that `ms_rows` is proved once.
#![tactic(auto)]

#[cfg(test)]
mod tests;
