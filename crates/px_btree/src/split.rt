// A page without room for a tuple is cut in two, and its second part goes into a new page. The pages may hold any bytes.
ghost use Rattle.std.specs.Prelude.{◌≡◌, ◌≤◌, ◌<◌, ◌+◌, ◌^◌, ℕ, List, ◌∷◌, length, take, drop, OnOk, IfOk, IfErr, IfSome, IfNone};
ghost use Rattle.px_core.specs.Shown.{Clean, Broke};
ghost use Rattle.px_pages.specs.Entry.{Entry, entry};
ghost use Rattle.px_pages.specs.Page.{IsPageLen, tuples_of, used_of, left_of, header_len};
ghost use Rattle.px_pages.specs.Place.{IsPlace};
ghost use Rattle.px_cache.specs.View.{AnyFile, NoPins, Holds, Shows, OthersShown, SameCache};
ghost use Rattle.px_btree.specs.Split.{IsAcross, CutsFor, IsFirst, IsSecond, CutShown};

use crate::page::put_in;
use px_cache::Cache;
use px_core::{Disk, Stop, Vid};
use px_pages::{PageReader, Place, Tuple, find, keep_back, keep_front, set_link};

// The bytes of a page's header.
const HEADER: u32 = 32;

// A tuple, and the places before and behind it.
#[derive(Clone, Copy)]
struct Across {
    before: Place,
    tuple: Tuple,
    after: Place,
}

// Where a page is cut, and whether a new tuple stands in its first part.
#[derive(Clone, Copy)]
struct Cut {
    place: Place,
    first: bool,
}

// The place to which a reader came, so many tuples and bytes from the front.
fn place_at(reader: &mut PageReader, page: &[u8], index: u32, at: u32) -> Place
    requires page { IsPageLen (length page.now) }
    requires index { index ≤ length (tuples_of page.now) }
    requires left { drop index (tuples_of page.now) ≡ left_of reader.old page.now }
    requires at { at ≡ used_of (take index (tuples_of page.now)) }
    ensures place { IsPlace result page.now }
    ensures index { result.index ≡ index }
    ensures at { result.at ≡ at }
{
    let tuple = reader.next(page);
    Place { index, at, tuple }
}

// The first tuple that ends behind a byte of the page.
fn tuple_across(page: &[u8], limit: u32) -> Option<Across>
    requires page { IsPageLen (length page.now) }
    requires limit { header_len ≤ limit }
    ensures some { IfSome result (λ a. IsAcross a limit page.now) }
    ensures none { IfNone result (used_of (tuples_of page.now) ≤ limit) }
{
    let mut reader = PageReader::open(page);
    let mut index = 0;
    let mut at = HEADER;
    while let Some(tuple) = reader.next(page) {
        let before = Place {
            index,
            at,
            tuple: Some(tuple),
        };
        index += 1;
        at = tuple.at + tuple.len;
        if at > limit {
            let after = place_at(&mut reader, page, index, at);
            return Some(Across {
                before,
                tuple,
                after,
            });
        }
    }
    None
}

// A page is cut at the tuple across its middle: before it, where a new tuple's key is below its own, and else behind it.
fn cut_in(page: &[u8], vid: Vid) -> Cut
    requires { IsPageLen (length page.now) }
    ensures place { IsPlace result.place page.now }
    ensures halves { CutsFor vid result.place.index result.first page.now }
{
    match tuple_across(page, page.len() as u32 / 2 + HEADER / 2) {
        None => Cut {
            place: find(page, vid),
            first: true,
        },
        Some(t) if vid < t.tuple.key => Cut {
            place: t.before,
            first: true,
        },
        Some(t) => Cut {
            place: t.after,
            first: vid == t.tuple.key,
        },
    }
}

// Makes it the first part of the page, with the new tuple where that stands there, and links it.
fn make_first(page: &mut [u8], cut: Cut, link: u64, vid: Vid, tag: u8, body: &[u8])
    requires { IsPageLen (length page.old) }
    ensures { IsPlace cut.place page.old → IsFirst (entry vid tag body.now) cut.place.index cut.first link page.old page.new }
{
    keep_front(page, cut.place);
    set_link(page, link);
    if cut.first {
        put_in(page, vid, tag, body);
    }
}

// Makes it the second part of the page, with the new tuple where that stands there.
fn make_second(page: &mut [u8], cut: Cut, vid: Vid, tag: u8, body: &[u8])
    requires { IsPageLen (length page.old) }
    ensures { IsPlace cut.place page.old → IsSecond (entry vid tag body.now) cut.place.index cut.first page.old page.new }
{
    keep_back(page, cut.place);
    if !cut.first {
        put_in(page, vid, tag, body);
    }
}

// The key of the first tuple, or 0 where there is none.
fn first_key(page: &[u8]) -> Vid
    requires { IsPageLen (length page.now) }
    ensures { (r : Entry) (right : List Entry) → tuples_of page.now ≡ r ∷ right → result ≡ r.key }
{
    let mut reader = PageReader::open(page);
    match reader.next(page) {
        Some(t) => t.key,
        None => 0,
    }
}

/// Cuts the page in the frame of the last load, with a tuple more, into that frame and a new page. Answers the first key of the new page. It reads nothing.
pub(crate) fn split_page<D: Disk>(
    cache: &mut Cache,
    disk: &mut D,
    file: u32,
    i: u32,
    page: u64,
    vid: Vid,
    tag: u8,
    body: &[u8],
) -> Result<Vid, Stop>
    requires len { cache.old.len ≡ (D.shown disk.old).page_len }
    requires page { IsPageLen (D.shown disk.old).page_len }
    requires pins { NoPins cache.old.notes }
    requires hand { cache.old.hand ≡ i + 1 }
    requires holds { (p : ℕ) × Holds cache.old.notes i file p }
    ensures cut { IfOk result (λ k. (ps : List (List ℕ)) (p : ℕ) → page ≡ length ps → page + 1 < 2 ^ 64 → Holds cache.old.notes i file p → Shows cache.old (D.shown disk.old) file ps → CutShown (entry vid tag body.now) p page file ps k cache.new (D.shown disk.new)) }
    ensures others { OnOk result (OthersShown file cache.old (D.shown disk.old) cache.new (D.shown disk.new)) }
    ensures stays { SameCache cache.old cache.new }
    ensures reads { (D.shown disk.new).reads ≤ (D.shown disk.old).reads }
    ensures ok { OnOk result (Clean AnyFile (D.shown disk.old) (D.shown disk.new)) }
    ensures err { IfErr result (Broke Stop.Graph AnyFile (D.shown disk.old) (D.shown disk.new)) }
{
    let j = cache.new_page(disk, file, page)?;
    // Over a disk that lies, the page could be the one that is cut.
    if i == j {
        return Ok(vid);
    }
    cache.copy(i, j);
    let cut = cut_in(cache.frame(i), vid);
    let link = page.saturating_add(1);
    make_first(cache.frame_mut(i), cut, link, vid, tag, body);
    make_second(cache.frame_mut(j), cut, vid, tag, body);
    Ok(first_key(cache.frame(j)))
}
