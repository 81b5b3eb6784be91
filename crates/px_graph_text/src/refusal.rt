// Why no vertex more is read from a text.
use thiserror::Error;

/// Why a line is refused.
#[derive(Clone, Copy, Debug, PartialEq, Eq, Error)]
pub enum Kind {
    /// A byte, or the end of the line, that no good line has here.
    #[error("form")]
    Form,
    /// A number passes its greatest value.
    #[error("number")]
    Number,
    /// An edge with which the vertex passes its room.
    #[error("wide")]
    Wide,
    /// The text passes its greatest length.
    #[error("long")]
    Long,
}

/// Why a text was not read to its end.
#[derive(Clone, Copy, Debug, PartialEq, Eq, Error)]
pub enum TextStop {
    /// The source failed, and counted that among its faults.
    #[error("the source failed")]
    Source,
    /// The text is refused on this line, counted from 1.
    #[error("line {line}: {kind}")]
    Bad { line: u64, kind: Kind },
}
