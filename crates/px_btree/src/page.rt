// One page of a tree: a child and a vertex are found in it, and a vertex is put in and taken out. The page may hold any bytes.
ghost use Rattle.std.specs.Prelude.{◌≡◌, ◌≤◌, ◌<◌, ◌+◌, ℕ, List, length, Some, None, IsTrue, IsFalse, IfSome, IfNone, is_some};
ghost use Rattle.px_pages.specs.Entry.{entry};
ghost use Rattle.px_pages.specs.Page.{IsPageLen, tuples_of, entry_of};
ghost use Rattle.px_pages.specs.Place.{Turned};
ghost use Rattle.px_btree.specs.Search.{IsChildPage, IsPlaceOf, KeyIs, chosen, found};
ghost use Rattle.px_btree.specs.Tree.{Piece, AreKeys};
ghost use Rattle.px_btree.specs.Put.{placed, gone, IsFullFor};

use px_core::Vid;
use px_pages::{Place, Tuple, child_at, children_to, find, insert, remove, replace};

/// The child of an inner page under which a vid lies, or 0 where it has none.
pub(crate) fn child_in(page: &[u8], vid: Vid) -> u64
    requires { IsPageLen (length page.now) }
    ensures { IsChildPage (tuples_of page.now) → result ≡ chosen vid 0 (tuples_of page.now) }
{
    let n = children_to(page, vid);
    if n == 0 {
        return 0;
    }
    child_at(page, n - 1).page
}

// Whether the tuple at a place has this key.
fn has_key(place: Place, vid: Vid) -> bool
    ensures yes { IsTrue result → KeyIs place.tuple vid }
    ensures no { IsFalse result → KeyIs place.tuple vid → ⊥ }
{
    match place.tuple {
        Some(t) => t.key == vid,
        None => false,
    }
}

// Whether the tuple at a place lies within the page, as it does where the place is one of the page.
fn is_within(page: &[u8], place: Place) -> bool
    ensures yes { IsTrue result → IfSome place.tuple (λ t. t.at + t.len ≤ length page.now) }
    ensures no { IsFalse result → IfSome place.tuple (λ t. t.at + t.len ≤ length page.now) → ⊥ }
{
    match place.tuple {
        Some(t) => t.at as usize + t.len as usize <= page.len(),
        None => true,
    }
}

/// The tuple of a vid at its place, in a page of ascending keys.
pub(crate) fn tuple_at(page: &[u8], place: Place, vid: Vid) -> Option<Tuple>
    ensures some { IfSome result (λ t. (low : ℕ) (xs : List Piece) → IsPlaceOf vid place page.now → AreKeys low (tuples_of page.now) xs → found vid (tuples_of page.now) ≡ Some (entry_of t page.now)) }
    ensures within { IfSome result (λ t. t.at + t.len ≤ length page.now) }
    ensures none { IfNone result ((low : ℕ) (xs : List Piece) → IsPlaceOf vid place page.now → AreKeys low (tuples_of page.now) xs → found vid (tuples_of page.now) ≡ None) }
{
    if has_key(place, vid) && is_within(page, place) {
        return place.tuple;
    }
    None
}

/// Puts a tuple among those of a page at its key's place, instead of one with that key. Where the page has no room for it, it answers false and changes nothing.
pub(crate) fn put_tuple_at(page: &mut [u8], place: Place, vid: Vid, tag: u8, body: &[u8]) -> bool
    requires { IsPageLen (length page.old) }
    ensures put { IsTrue result → IsPlaceOf vid place page.old → Turned (placed (entry vid tag body.now)) page.old page.new }
    ensures same { IsFalse result → page.new ≡ page.old }
    ensures full { IsFalse result → IsPlaceOf vid place page.old → IsFullFor (entry vid tag body.now) page.old }
{
    if has_key(place, vid) {
        return replace(page, place, vid, tag, body);
    }
    insert(page, place, vid, tag, body)
}

/// Puts a tuple among those of a page, as `put_tuple_at` does.
pub(crate) fn put_in(page: &mut [u8], vid: Vid, tag: u8, body: &[u8]) -> bool
    requires { IsPageLen (length page.old) }
    ensures put { IsTrue result → Turned (placed (entry vid tag body.now)) page.old page.new }
    ensures same { IsFalse result → page.new ≡ page.old }
    ensures full { IsFalse result → IsFullFor (entry vid tag body.now) page.old }
{
    let place = find(page, vid);
    put_tuple_at(page, place, vid, tag, body)
}

/// Takes the tuple of a vid out at its place, and answers whether it was there.
pub(crate) fn remove_tuple_at(page: &mut [u8], place: Place, vid: Vid) -> bool
    requires { IsPageLen (length page.old) }
    ensures gone { IsPlaceOf vid place page.old → Turned (gone vid) page.old page.new }
    ensures there { (low : ℕ) (xs : List Piece) → IsPlaceOf vid place page.old → AreKeys low (tuples_of page.old) xs → result ≡ is_some (found vid (tuples_of page.old)) }
{
    if !has_key(place, vid) {
        return false;
    }
    remove(page, place);
    true
}
