//! Why tokens are no script that is taken.

/// Why `parse` gives no script.
#[derive(Clone, Copy, Debug, PartialEq, Eq, Drop)]
pub enum SyntaxFault {
    /// More than 128 parentheses and CASEs are open at some token, or a statement's tree is nested deeper than 128.
    TooDeep,
    /// The tokens are no script, and none of them is open too deep.
    NotASentence {
        /// The offset of the first token with which no sentence goes on, or the source's length where it ends too early.
        at: u64,
    },
    /// Memory ran out.
    Memory,
}
