use thiserror::Error;

/// Why tokens are not read, with a token counted from 0 from the front of them all.
#[derive(Clone, Copy, Debug, PartialEq, Eq, Error)]
pub enum ParseFault {
    /// The first token with which no list of the grammar goes on; the number of tokens where all
    /// of them begin such a list but are none.
    #[error("token {0} cannot stand there")]
    Syntax(usize),
    /// The first token at which brackets and `if` nest too deep.
    #[error("token {0} nests too deep")]
    Deep(usize),
    /// No memory for the tree.
    #[error("out of memory")]
    Memory,
}
