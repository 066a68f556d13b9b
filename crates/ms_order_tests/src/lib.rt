//! Models as texts, by the lexer and the parser, as the tests of `ms_postorder` and `ms_order`.
#![tactic(auto)]

#[cfg(test)]
mod tests;
