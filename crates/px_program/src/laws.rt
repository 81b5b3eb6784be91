//! Laws of regrouping, each the contract of a function that does nothing: why it does not matter how pairs are cut, merged, spilled or delivered before they are grouped.
ghost use Rattle.px_program.specs.Regrouping.{AnyOrder, InParts, OneMerge, NeverLonger, ByPartition, Regroup};

/// Pairs are grouped alike in any order.
pub fn any_order()
    ensures { AnyOrder }
{}

/// Parts may be grouped before the whole.
pub fn in_parts()
    ensures { InParts }
{}

/// Two pairs of a vid may be merged to one.
pub fn one_merge()
    ensures { OneMerge }
{}

/// No payload is longer than its vid's fold, so that a piece above room makes the whole so.
pub fn never_longer()
    ensures { NeverLonger }
{}

/// The pairs of a partition may be taken before or after grouping.
pub fn by_partition()
    ensures { ByPartition }
{}

/// Pieces that are woven together are grouped as the wholes that they stand for.
pub fn regroup()
    ensures { Regroup }
{}
