//! What a Pregel program is: combiners, outboxes and programs, and what is printed of a run.
#![tactic(auto)]

mod group;
pub mod laws;
mod merge;
mod outbox;
mod print;
mod program;

pub use group::Group;
pub use merge::Merge;
pub use outbox::Outbox;
pub use print::{
    MOST_OF_LINE, line_with, print_decimal, print_edge, print_edges, print_summary, print_vertex,
    push_decimal,
};
pub use program::{At, Program, Settled};
