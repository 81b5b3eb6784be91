// The open leaf of a tree: a page in a frame of the cache whose tuples are kept apart while calls ascend in it. Nothing here calls the disk.
ghost use Rattle.std.specs.Prelude.{◌≡◌, ◌≤◌, ◌<◌, ◌⊎◌, ◌+◌, ◌^◌, ℕ, List, [], ◌∷◌, length, slice_index_or, IsTrue, IsFalse, IfSome, IfNone};
ghost use Rattle.px_core.specs.Shown.{Shown};
ghost use Rattle.px_meaning.specs.Graph.{fresh, room_of};
ghost use Rattle.px_pages.specs.Entry.{Entry, entry};
ghost use Rattle.px_pages.specs.Page.{IsPageLen, IsMade, writer_of, link_of};
ghost use Rattle.px_pages.specs.Place.{IsFront};
ghost use Rattle.px_cache.specs.View.{Holds, OthersShown, SameCache};
ghost use Rattle.px_btree.specs.Apart.{closed};
ghost use Rattle.px_btree.specs.Scan.{is_held};
ghost use Rattle.px_store.specs.Desks.{SameRoom};
ghost use Rattle.px_btree.specs.Open.{IsOpenFrom, PartsAt, EndsHere, PutsApart, GivesApart, IsLeafIn, IsAlone, PutsOpen, GivesOpen, OpensAt, shut};

use crate::apart::Apart;
use crate::leaf::take_apart;
use crate::tree::Mark;
use px_cache::Cache;
use px_core::Vid;
use px_pages::{find_from, link, tags};
use px_record::VertexBuf;

/// A leaf that is open: its frame, the place at which it was opened, the least vid that may come next, and how its tuples are kept apart.
#[derive(Clone, Copy)]
pub(crate) struct OpenLeaf {
    pub(crate) frame: u32,
    pub(crate) mark: Mark,
    pub(crate) from: Vid,
    pub(crate) apart: Apart,
}

// Whether tuples are kept apart, or no leaf comes after this one.
fn ends_here(page: &[u8], apart: Apart) -> bool
    requires { IsPageLen (length page.now) }
    ensures { IsTrue result → (apart.back < length page.now) ⊎ (link_of page.now ≡ 0) }
{
    (apart.back as usize) < page.len() || link(page) == 0
}

// Moves the tuples below a vid to those in front, and answers whether the vid lies in the page for certain.
fn reach(page: &mut [u8], apart: &mut Apart, vid: Vid) -> bool
    requires { IsPageLen (length page.old) }
    ensures next { (from : ℕ) → from ≤ vid → IsOpenFrom from apart.old page.old → IsOpenFrom vid apart.new page.new }
    ensures parts { (from : ℕ) → from ≤ vid → IsOpenFrom from apart.old page.old → PartsAt vid apart.new page.new }
    ensures ends { IsTrue result → (from : ℕ) → from ≤ vid → IsOpenFrom from apart.old page.old → EndsHere vid (closed apart.old page.old) }
    ensures same { closed apart.new page.new ≡ closed apart.old page.old }
{
    apart.pass(page, vid);
    ends_here(page, *apart)
}

// Puts a tuple into an open page, if its vid lies there for certain and there is room.
fn put_apart(page: &mut [u8], apart: &mut Apart, vid: Vid, tag: u8, body: &[u8]) -> bool
    requires { IsPageLen (length page.old) }
    ensures put { IsTrue result → (from : ℕ) → from ≤ vid → IsOpenFrom from apart.old page.old → PutsApart (entry vid tag body.now) apart.old apart.new page.old page.new }
    ensures next { IsFalse result → (from : ℕ) → from ≤ vid → IsOpenFrom from apart.old page.old → IsOpenFrom vid apart.new page.new }
    ensures same { IsFalse result → closed apart.new page.new ≡ closed apart.old page.old }
{
    if !reach(page, apart, vid) {
        return false;
    }
    apart.put(page, vid, tag, body)
}

// Gives the vertex of a vid out of an open page, if the vid lies there for certain.
fn get_apart(page: &mut [u8], apart: &mut Apart, vid: Vid, into: &mut VertexBuf) -> Option<bool>
    requires page { IsPageLen (length page.old) }
    requires room { into.old.room ≡ room_of (length page.old) }
    ensures given { IfSome result (λ b. (from : ℕ) → from ≤ vid → IsOpenFrom from apart.old page.old → GivesApart vid b into.new.vertex (closed apart.old page.old)) }
    ensures next { (from : ℕ) → from ≤ vid → IsOpenFrom from apart.old page.old → IsOpenFrom vid apart.new page.new }
    ensures same { closed apart.new page.new ≡ closed apart.old page.old }
    ensures vid { IfSome result (λ b. into.new.vid ≡ vid) }
    ensures fresh { IfSome result (λ b. IsFalse b → into.new.vertex ≡ fresh) }
    ensures into { SameRoom into.old into.new }
{
    if !reach(page, apart, vid) {
        return None;
    }
    Some(take_apart(page, *apart, vid, into))
}

// The frame of an open leaf, if it holds it.
fn frame_of(cache: &Cache, file: u32, leaf: OpenLeaf) -> Option<u32>
    ensures some { IfSome result (λ i. (i ≡ leaf.frame) × Holds cache.now.notes i file leaf.mark.page) }
    ensures none { IfNone result (Holds cache.now.notes leaf.frame file leaf.mark.page → IsAlone file leaf cache.now → ⊥) }
    ensures at { IfSome result (λ i. i < length cache.now.notes) }
{
    match cache.seek(file, leaf.mark.page) {
        Some(i) if i == leaf.frame => Some(i),
        _ => None,
    }
}

/// Closes an open leaf.
#[cold]
#[inline(never)]
pub(crate) fn close_leaf(cache: &mut Cache, file: u32, leaf: OpenLeaf)
    requires { IsPageLen cache.old.len }
    ensures closed { IsLeafIn file leaf cache.old → IsAlone file leaf cache.old → cache.new ≡ shut leaf cache.old }
    ensures others { (s : Shown) → OthersShown file cache.old s cache.new s }
    ensures held { (f p : ℕ) → is_held cache.new.notes f p ≡ is_held cache.old.notes f p }
    ensures stays { SameCache cache.old cache.new }
{
    if let Some(i) = frame_of(cache, file, leaf) {
        leaf.apart.close(cache.frame_mut(i));
    }
}

// The least vid that may come after a call with this one, which was put or was not.
fn next_of(vid: Vid, put: bool) -> Vid
    requires { vid + 1 < 2 ^ 64 }
    ensures put { IsTrue put → result ≡ vid + 1 }
    ensures not { IsFalse put → result ≡ vid }
{
    if put { vid + 1 } else { vid }
}

/// Puts a vertex into an open leaf, if its vid lies there for certain and there is room.
pub(crate) fn put_leaf(
    cache: &mut Cache,
    file: u32,
    leaf: &mut OpenLeaf,
    vid: Vid,
    body: &[u8],
) -> bool
    requires page { IsPageLen cache.old.len }
    requires order { leaf.old.from ≤ vid }
    requires most { vid + 1 < 2 ^ 64 }
    ensures put { IsTrue result → IsLeafIn file leaf.old cache.old → IsAlone file leaf.old cache.old → PutsOpen (entry vid 1 body.now) file leaf.old leaf.new cache.old cache.new }
    ensures leaf { IsFalse result → IsLeafIn file leaf.old cache.old → IsAlone file leaf.old cache.old → IsLeafIn file leaf.new cache.new }
    ensures same { IsFalse result → IsLeafIn file leaf.old cache.old → IsAlone file leaf.old cache.old → shut leaf.new cache.new ≡ shut leaf.old cache.old }
    ensures mark { leaf.new.mark ≡ leaf.old.mark }
    ensures others { (s : Shown) → OthersShown file cache.old s cache.new s }
    ensures stays { SameCache cache.old cache.new }
{
    match frame_of(cache, file, *leaf) {
        None => false,
        Some(i) => {
            let page = cache.frame_mut(i);
            let done = put_apart(page, &mut leaf.apart, vid, tags::VERTEX, body);
            leaf.from = next_of(vid, done);
            done
        }
    }
}

/// Gives the vertex of a vid out of an open leaf, or the fresh one where it is not there, if the vid lies there for certain.
pub(crate) fn get_leaf(
    cache: &mut Cache,
    file: u32,
    leaf: &mut OpenLeaf,
    vid: Vid,
    into: &mut VertexBuf,
) -> Option<bool>
    requires page { IsPageLen cache.old.len }
    requires order { leaf.old.from ≤ vid }
    requires room { into.old.room ≡ room_of cache.old.len }
    ensures given { IfSome result (λ b. IsLeafIn file leaf.old cache.old → IsAlone file leaf.old cache.old → GivesOpen vid b into.new.vertex leaf.old cache.old) }
    ensures leaf { IsLeafIn file leaf.old cache.old → IsAlone file leaf.old cache.old → IsLeafIn file leaf.new cache.new }
    ensures same { IsLeafIn file leaf.old cache.old → IsAlone file leaf.old cache.old → shut leaf.new cache.new ≡ shut leaf.old cache.old }
    ensures mark { leaf.new.mark ≡ leaf.old.mark }
    ensures vid { IfSome result (λ b. into.new.vid ≡ vid) }
    ensures fresh { IfSome result (λ b. IsFalse b → into.new.vertex ≡ fresh) }
    ensures into { SameRoom into.old into.new }
    ensures others { (s : Shown) → OthersShown file cache.old s cache.new s }
    ensures stays { SameCache cache.old cache.new }
{
    match frame_of(cache, file, *leaf) {
        None => None,
        Some(i) => {
            let page = cache.frame_mut(i);
            let given = get_apart(page, &mut leaf.apart, vid, into);
            leaf.from = vid;
            given
        }
    }
}

/// Opens the leaf of a place, for the vids from the place's own on, if a frame holds it.
pub(crate) fn open_leaf(cache: &mut Cache, file: u32, mark: Mark) -> Option<OpenLeaf>
    requires { IsPageLen cache.old.len }
    ensures opened { IfSome result (λ o. OpensAt file mark o cache.old cache.new) }
    ensures none { IfNone result (cache.new ≡ cache.old) }
    ensures others { (s : Shown) → OthersShown file cache.old s cache.new s }
    ensures stays { SameCache cache.old cache.new }
{
    let frame = cache.seek(file, mark.page)?;
    let page = cache.frame_mut(frame);
    let place = find_from(page, mark.place, mark.key);
    let apart = Apart::open(page, place);
    Some(OpenLeaf {
        frame,
        mark,
        from: mark.key,
        apart,
    })
}
