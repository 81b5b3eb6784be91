//! Laws of the maps, folds and steps, each the contract of a function that does nothing.
ghost use Rattle.std.specs.Prelude.{ℕ, List};
ghost use Rattle.px_meaning.specs.Graph.{Vertex};
ghost use Rattle.px_meaning.specs.Laws.{LookupAfterPut, LookupAfterDelete, EqualByLookups, InboxOfJoined, GroupedIsMap, GroupedHasInboxes, BeyondWithMore, NextGraphIsMap};

/// What was put into a graph, or into a map of bytes, is found there, and nothing else changed.
pub fn lookup_after_put()
    ensures graphs { LookupAfterPut Vertex }
    ensures bytes { LookupAfterPut (List ℕ) }
{}

/// What was deleted is not found any more, and nothing else changed.
pub fn lookup_after_delete()
    ensures graphs { LookupAfterDelete Vertex }
    ensures bytes { LookupAfterDelete (List ℕ) }
{}

/// The look-ups decide a graph, and a map of bytes.
pub fn equal_by_lookups()
    ensures graphs { EqualByLookups Vertex }
    ensures bytes { EqualByLookups (List ℕ) }
{}

/// Pairs may be folded in two parts, for every combiner that meets its laws.
pub fn inbox_of_joined()
    ensures { InboxOfJoined }
{}

/// Grouped pairs ascend by vid, each vid once.
pub fn grouped_is_map()
    ensures { GroupedIsMap }
{}

/// Grouped pairs have each vid's fold, and no other vid.
pub fn grouped_has_inboxes()
    ensures { GroupedHasInboxes }
{}

/// A sender that is beyond the limits need not wait for what else is sent.
pub fn beyond_with_more()
    ensures { BeyondWithMore }
{}

/// A superstep keeps the graph a map.
pub fn next_graph_is_map()
    ensures { NextGraphIsMap }
{}
