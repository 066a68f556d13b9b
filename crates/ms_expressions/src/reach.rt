/// How loose an expression may be: any, or one of the level of `..`.
#[derive(Clone, Copy)]
pub enum Reach {
    /// Any expression, also a `let`.
    Any,
    /// One of the level of `..`, or tighter.
    Range,
}
