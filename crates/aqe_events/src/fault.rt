//! Why an events file is refused.

/// Why an events file is refused: the first in the order of lines.
#[derive(Clone, Copy, Debug, PartialEq, Eq, Drop)]
pub enum EventFault {
    /// A line is none of the forms, or its query is not greater than the one before.
    BadLine {
        /// The line, from 1.
        line: u64,
    },
    /// There are more than 1,000,000 lines of events.
    TooManyEvents,
    /// An allocation failed.
    Memory,
}
