/// So many parts of a list that has to look at its parts again are asked once, and what they are is kept. A later
/// part is asked each time that it is needed: no memory is taken, and a walk's frames stay small.
pub const KEPT: usize = 64;
