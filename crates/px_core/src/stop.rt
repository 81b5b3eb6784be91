// Why a call stopped.
use thiserror::Error;

/// A device did not do what it was asked. The device counted it among its faults.
#[derive(Clone, Copy, Debug, PartialEq, Eq, Error)]
#[error("the device failed")]
pub struct Failed;

/// The device that failed under an operator, or the limit that its data went past.
#[derive(Clone, Copy, Debug, PartialEq, Eq, Error)]
pub enum Stop {
    /// The disk of the graph failed.
    #[error("the graph disk failed")]
    Graph,
    /// The disk of scratch files failed.
    #[error("the scratch disk failed")]
    Scratch,
    /// A vertex, a message or a request is longer than half a frame can hold.
    #[error("a record is longer than its room")]
    Beyond,
}
