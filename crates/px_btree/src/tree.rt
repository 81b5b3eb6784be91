// The tree's own numbers.
ghost use Rattle.std.specs.Prelude.{◌≡◌, ◌<◌, ◌≤◌};
ghost use Rattle.px_btree.specs.Tree.{started_in};

use px_core::Vid;
use px_pages::{PageReader, Place};
use std::marker::Model;

/// The leaf and the vid of the last call, and the place of the vid in the leaf. A call with a greater vid goes on from there.
#[derive(Clone, Copy)]
pub(crate) struct Mark {
    pub(crate) page: u64,
    pub(crate) key: Vid,
    pub(crate) place: Place,
}

/// A tree of pages in one file of the graph disk. Its leaves are linked from left to right.
#[derive(Drop)]
pub(crate) struct ClosedTree {
    pub(crate) part: u32,
    // The page of the root, and the number of levels.
    pub(crate) root: u64,
    pub(crate) depth: u32,
    // The pages of the file, and how many of them are leaves.
    pub(crate) pages: u64,
    pub(crate) leaves: u64,
    // The cursor: its leaf, how many leaves it may still read with this one, and where it stands in the leaf; None before it was looked into.
    pub(crate) at: u64,
    pub(crate) togo: u64,
    pub(crate) here: Option<PageReader>,
    // The place of the last call.
    pub(crate) mark: Option<Mark>,
}

impl Model for ClosedTree {
    ghost use Rattle.std.specs.Prelude.{◌<◌, ◌≤◌};
    ghost use Rattle.px_btree.specs.Tree.{TreeView};

    ghost Value = { TreeView };

    ghost view = { λ t. record { part = t.part; root = t.root; depth = t.depth; pages = t.pages; leaves = t.leaves; at = t.at; togo = t.togo; here = t.here; mark = t.mark } };

    ghost invariant = { λ t. (t.part < 16) × (1 ≤ t.depth) × (t.depth ≤ 64) };
}

impl ClosedTree {
    /// A tree of this partition. It holds nothing before it is started.
    pub(crate) fn open(partition: u32) -> ClosedTree
        requires { partition < 16 }
        ensures { result ≡ started_in partition }
    {
        ClosedTree {
            part: partition,
            root: 0,
            depth: 1,
            pages: 1,
            leaves: 1,
            at: 0,
            togo: 0,
            here: None,
            mark: None,
        }
    }

    /// The number of levels of pages.
    pub(crate) fn depth(&self) -> u32
        ensures value { result ≡ self.now.depth }
        ensures most { result ≤ 64 }
    {
        self.depth
    }
}
