// A vertex is taken out of a leaf. The page may hold any bytes.
ghost use Rattle.std.specs.Prelude.{◌≡◌, ◌≤◌, ◌+◌, ℕ, List, length, is_some, IsFalse, true};
ghost use Rattle.px_meaning.specs.Graph.{fresh, lookup, vertex_or_fresh, room_of};
ghost use Rattle.std.specs.List.{prefix_len};
ghost use Rattle.px_pages.specs.Entry.{Entry};
ghost use Rattle.px_pages.specs.Page.{IsPageLen, tuples_of, entry_of};
ghost use Rattle.px_record.specs.Body.{vertex_of};
ghost use Rattle.px_pages.specs.Place.{is_below};
ghost use Rattle.px_btree.specs.Apart.{KeepsApart};
ghost use Rattle.px_btree.specs.Search.{IsPlaceOf};
ghost use Rattle.px_btree.specs.Tree.{Piece, AreKeys, AreItems, IsItem, items};
ghost use Rattle.px_store.specs.Desks.{SameRoom};

use crate::apart::Apart;
use crate::page::tuple_at;
use px_core::Vid;
use px_pages::{Place, Tuple};
use px_record::VertexBuf;

/// Makes it the vertex of a vid that the leaf holds at this place, or the fresh one where it holds none.
pub(crate) fn take_into(page: &[u8], place: Place, vid: Vid, into: &mut VertexBuf) -> bool
    requires page { IsPageLen (length page.now) }
    requires room { into.old.room ≡ room_of (length page.now) }
    ensures found { (es : List Entry) (low : ℕ) (xs : List Piece) → IsPlaceOf vid place page.now → tuples_of page.now ≡ es → AreKeys low es xs → AreItems (length page.now) es → (result ≡ is_some (lookup vid (items es))) × (into.new.vertex ≡ vertex_or_fresh (lookup vid (items es))) }
    ensures vid { into.new.vid ≡ vid }
    ensures fresh { IsFalse result → into.new.vertex ≡ fresh }
    ensures into { SameRoom into.old into.new }
{
    match tuple_at(page, place, vid) {
        None => {
            into.reset(vid);
            false
        }
        Some(t) => load_at(page, t, vid, into),
    }
}

/// Makes it the vertex of a vid that stands first among the tuples that a page keeps apart, or the fresh one where it does not stand there.
pub(crate) fn take_apart(page: &[u8], apart: Apart, vid: Vid, into: &mut VertexBuf) -> bool
    requires page { IsPageLen (length page.now) }
    requires room { into.old.room ≡ room_of (length page.now) }
    ensures found { (n kind link : ℕ) (es : List Entry) (low : ℕ) (xs : List Piece) → KeepsApart n kind link (prefix_len (is_below vid) es) es apart page.now → AreKeys low es xs → AreItems (length page.now) es → (result ≡ is_some (lookup vid (items es))) × (into.new.vertex ≡ vertex_or_fresh (lookup vid (items es))) }
    ensures vid { into.new.vid ≡ vid }
    ensures fresh { IsFalse result → into.new.vertex ≡ fresh }
    ensures into { SameRoom into.old into.new }
{
    match apart.first(page, vid) {
        None => {
            into.reset(vid);
            false
        }
        Some(t) => load_at(page, t, vid, into),
    }
}

/// Makes it the vertex that a tuple spells, or the fresh one where that is none within room.
#[inline]
pub(crate) fn load_at(page: &[u8], t: Tuple, vid: Vid, into: &mut VertexBuf) -> bool
    requires within { t.at + t.len ≤ length page.now }
    requires room { into.old.room ≡ room_of (length page.now) }
    ensures loaded { IsItem (length page.now) (entry_of t page.now) → (result ≡ true) × (into.new.vertex ≡ vertex_of (entry_of t page.now).body) }
    ensures vid { into.new.vid ≡ vid }
    ensures fresh { IsFalse result → into.new.vertex ≡ fresh }
    ensures into { SameRoom into.old into.new }
{
    let at = t.at as usize;
    if into.load(vid, &page[at..at + t.len as usize]) {
        return true;
    }
    into.reset(vid);
    false
}
