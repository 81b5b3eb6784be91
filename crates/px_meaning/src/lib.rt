//! What a Pregel run means, and what a graph text is. Definitions alone, with the laws that everything above uses.
#![tactic(auto)]

mod laws;
mod lines;

pub use laws::{
    beyond_with_more, equal_by_lookups, grouped_has_inboxes, grouped_is_map, inbox_of_joined,
    lookup_after_delete, lookup_after_put, next_graph_is_map,
};
pub use lines::{
    first_offence_is_refused, good_lines_are_read, read_lines_are_good, refused_at_first_offence,
    refused_for_its_kind,
};
