// Finds places among the tuples of a page, whoever wrote it.
ghost use Rattle.std.specs.Prelude.{◌≡◌, ◌<◌, ◌≤◌, ◌+◌, length, IfSome, max};
ghost use Rattle.std.specs.List.{prefix_len};
ghost use Rattle.px_meaning.specs.Graph.{front_len};
ghost use Rattle.px_pages.specs.Page.{IsPageLen, tuples_of, header_len};
ghost use Rattle.px_pages.specs.Place.{IsPlace, IsFront, is_below};

use crate::header::HEADER;
use crate::reader::{PageReader, Tuple};
use px_core::Vid;

/// A place among the tuples of a page: before one of them, or behind all.
#[derive(Clone, Copy, Debug, PartialEq, Eq)]
pub struct Place {
    /// How many tuples are before it.
    pub index: u32,
    /// Where it is, from the front of the page.
    pub at: u32,
    /// The tuple that stands there.
    pub tuple: Option<Tuple>,
}

/// The place of the first tuple whose key is not below this one, or that behind all.
pub fn find(page: &[u8], key: Vid) -> Place
    requires { IsPageLen (length page.now) }
    ensures place { IsPlace result page.now }
    ensures first { result.index ≡ prefix_len (is_below key) (tuples_of page.now) }
{
    let front = Place {
        index: 0,
        at: HEADER as u32,
        tuple: None,
    };
    find_from(page, front, key)
}

/// What `find` finds, where no tuple before this place has a key that is not below. The tuples before it are not walked.
pub fn find_from(page: &[u8], from: Place, key: Vid) -> Place
    requires { IsPageLen (length page.now) }
    ensures place { IsFront from.index from.at page.now → IsPlace result page.now }
    ensures first { IsFront from.index from.at page.now → from.index ≤ prefix_len (is_below key) (tuples_of page.now) → result.index ≡ prefix_len (is_below key) (tuples_of page.now) }
    ensures within { IfSome result.tuple (λ t. t.at + t.len ≤ length page.now) }
{
    let mut reader = PageReader::behind(page, from.index, from.at);
    let mut index = from.index;
    let mut at = from.at;
    while let Some(t) = reader.next(page) {
        if t.key >= key {
            return Place {
                index,
                at,
                tuple: Some(t),
            };
        }
        index = index.saturating_add(1);
        at = t.at + t.len;
    }
    Place {
        index,
        at,
        tuple: None,
    }
}

/// The place before the first tuple that ends behind byte `limit`, or that behind all.
pub fn find_end(page: &[u8], limit: u32) -> Place
    requires { IsPageLen (length page.now) }
    ensures place { IsPlace result page.now }
    ensures within { result.at ≤ max header_len limit }
    ensures last { IfSome result.tuple (λ t. limit < t.at + t.len) }
    ensures front { IfSome result.tuple (λ t. t.at ≡ result.at + front_len) }
{
    let mut reader = PageReader::open(page);
    let mut index = 0;
    let mut at = HEADER as u32;
    while let Some(t) = reader.next(page) {
        if t.at + t.len > limit {
            return Place {
                index,
                at,
                tuple: Some(t),
            };
        }
        index += 1;
        at = t.at + t.len;
    }
    Place {
        index,
        at,
        tuple: None,
    }
}
