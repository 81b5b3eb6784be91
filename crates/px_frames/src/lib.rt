//! The pool of frames: a bank made once, the shares and the slot table that it lends, and lists of bytes held in a frame.
#![tactic(auto)]

mod bank;
mod buf;
mod frame;
mod share;
mod table;
#[cfg(test)]
mod tests;

pub use bank::Bank;
pub use buf::{Buf, Wide};
pub use frame::Frame;
pub use share::Share;
pub use table::SlotShare;
