//! What a page holds, as the first byte of its header says.

/// Tuples of a file that is read from front to end.
pub const STREAM: u8 = 1;

/// The number of pages of a run, in one tuple with key 0 and the tag `CHILD`. This page is not counted.
pub const RUN_HEADER: u8 = 2;

/// Vertices of a B-tree.
pub const BTREE_LEAF: u8 = 3;

/// Children of a B-tree.
pub const BTREE_INNER: u8 = 4;

/// Vertices and tombstones of a component of an LSM tree.
pub const LSM_LEAF: u8 = 5;

/// Children of a component of an LSM tree.
pub const LSM_INNER: u8 = 6;

// The six kinds are the numbers from 1 to 6, in this order.
const _: () = prove!(
    0 < STREAM
        && STREAM < RUN_HEADER
        && RUN_HEADER < BTREE_LEAF
        && BTREE_LEAF < BTREE_INNER
        && BTREE_INNER < LSM_LEAF
        && LSM_LEAF < LSM_INNER
        && LSM_INNER == 6
);
