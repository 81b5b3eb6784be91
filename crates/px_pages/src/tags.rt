//! What the body of a tuple is.

/// A payload that was sent to the vertex that the key names.
pub const MESSAGE: u8 = 0;

/// The rest of the vertex that the key names.
pub const VERTEX: u8 = 1;

/// A verdict on the vertex that the key names.
pub const REQUEST: u8 = 2;

/// Empty: the vertex was removed.
pub const TOMBSTONE: u8 = 3;

/// Empty: the vertex is active.
pub const LIVE_VID: u8 = 4;

/// A page number in 8 bytes.
pub const CHILD: u8 = 5;

// The six tags are the numbers from 0 to 5, in this order.
const _: () = prove!(
    MESSAGE < VERTEX
        && VERTEX < REQUEST
        && REQUEST < TOMBSTONE
        && TOMBSTONE < LIVE_VID
        && LIVE_VID < CHILD
        && CHILD == 5
);
