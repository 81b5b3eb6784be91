// The children of an inner page. All its tuples have one size, so one is found by its index, and by its key in halves.
ghost use Rattle.std.specs.Prelude.{◌≡◌, ◌<◌, ◌≤◌, length, slice_index_or};
ghost use Rattle.std.specs.List.{prefix_len};
ghost use Rattle.std.specs.List.Sorted.{IsNonDecreasingBy};
ghost use Rattle.px_pages.specs.Entry.{Entry};
ghost use Rattle.px_pages.specs.Page.{IsPageLen, tuples_of};
ghost use Rattle.px_pages.specs.Children.{AreChildren, children_of, child_of, is_up_to};

use crate::header::{HEADER, count};
use crate::writer::FRONT;
use byteorder::{BigEndian, ByteOrder};
use px_core::Vid;

// The bytes of a tuple with the number of a page as its body.
const CHILD_LEN: usize = FRONT + 8;

/// A page below an inner page, and the least key that lies under it.
#[derive(Clone, Copy, Debug, PartialEq, Eq)]
pub struct Child {
    pub key: Vid,
    pub page: u64,
}

/// How many children the page has, or has bytes for.
pub fn child_count(page: &[u8]) -> u32
    requires { IsPageLen (length page.now) }
    ensures value { result ≡ children_of page.now }
    ensures all { AreChildren (tuples_of page.now) → result ≡ length (tuples_of page.now) }
{
    count(page).min(((page.len() - HEADER) / CHILD_LEN) as u32)
}

/// The child with this index.
pub fn child_at(page: &[u8], index: u32) -> Child
    requires page_len { IsPageLen (length page.now) }
    requires in_range { index < children_of page.now }
    ensures { AreChildren (tuples_of page.now) → (d : Entry) → result ≡ child_of (slice_index_or (tuples_of page.now) index d) }
{
    let at = HEADER + CHILD_LEN * index as usize;
    Child {
        key: BigEndian::read_u64(&page[at..]),
        page: BigEndian::read_u64(&page[at + FRONT..]),
    }
}

/// How many children have a key that is not above this one.
pub fn children_to(page: &[u8], key: Vid) -> u32
    requires { IsPageLen (length page.now) }
    ensures within { result ≤ children_of page.now }
    ensures value { AreChildren (tuples_of page.now) → IsNonDecreasingBy (λ e. e.key) (tuples_of page.now) → result ≡ prefix_len (is_up_to key) (tuples_of page.now) }
{
    let mut low = 0;
    let mut high = child_count(page);
    while low < high {
        let mid = low + (high - low) / 2;
        if child_at(page, mid).key <= key {
            low = mid + 1;
        } else {
            high = mid;
        }
    }
    low
}
