//! Models and libraries as texts, by the lexer and the parser, as the tests of `ms_declarations`.
#![tactic(auto)]

#[cfg(test)]
mod tests;
