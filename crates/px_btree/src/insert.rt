// A vertex is put below a page, and what that adds to the level of the page is told.
ghost use Rattle.std.specs.Prelude.{◌≡◌, ◌≤◌, ◌<◌, ◌+◌, ◌*◌, ◌^◌, ℕ, List, length, OnOk, IfOk, IfErr};
ghost use Rattle.px_core.specs.Shown.{Clean, Broke};
ghost use Rattle.px_pages.specs.Entry.{entry};
ghost use Rattle.px_pages.specs.Page.{IsPageLen};
ghost use Rattle.px_cache.specs.View.{AnyFile, NoPins, OthersShown, SameCache, Shows};
ghost use Rattle.px_btree.specs.Search.{child};
ghost use Rattle.px_btree.specs.Tree.{Piece, IsItem};
ghost use Rattle.px_btree.specs.Find.{IsAt};
ghost use Rattle.px_btree.specs.Split.{PutShown};
ghost use Rattle.px_btree.specs.Rise.{PutsBelow};

use crate::descent::step;
use crate::page::put_in;
use crate::split::split_page;
use byteorder::{BigEndian, ByteOrder};
use px_cache::Cache;
use px_core::{Disk, Stop, Vid};
use px_pages::{Child, tags};

/// Puts a vertex into the leaf where its vid lies, so many levels below this page, and cuts pages that have no room.
/// `end` is the number of the next new page. Answers the page that the level of this one has more, to which the level above is to lead.
pub(crate) fn put_below<D: Disk>(
    cache: &mut Cache,
    disk: &mut D,
    file: u32,
    page: u64,
    level: u32,
    end: &mut u64,
    vid: Vid,
    body: &[u8],
) -> Result<Option<Child>, Stop>
    requires len { cache.old.len ≡ (D.shown disk.old).page_len }
    requires page { IsPageLen (D.shown disk.old).page_len }
    requires pins { NoPins cache.old.notes }
    ensures put { IfOk result (λ o. PutsBelow (entry vid 1 body.now) level page file o end.old end.new cache.old (D.shown disk.old) cache.new (D.shown disk.new)) }
    ensures others { OnOk result (OthersShown file cache.old (D.shown disk.old) cache.new (D.shown disk.new)) }
    ensures stays { SameCache cache.old cache.new }
    ensures reads { (D.shown disk.new).reads ≤ (D.shown disk.old).reads + 2 * level + 1 }
    ensures ok { OnOk result (Clean AnyFile (D.shown disk.old) (D.shown disk.new)) }
    ensures err { IfErr result (Broke Stop.Graph AnyFile (D.shown disk.old) (D.shown disk.new)) }
{
    if level == 0 {
        return put_at(cache, disk, file, page, end, vid, tags::VERTEX, body);
    }
    let below = step(cache, disk, file, page, vid)?;
    match put_below(cache, disk, file, below, level - 1, end, vid, body)? {
        None => Ok(None),
        Some(child) => put_child(cache, disk, file, page, end, child),
    }
}

// Puts a tuple into a page, or cuts the page where that has no room.
fn put_at<D: Disk>(
    cache: &mut Cache,
    disk: &mut D,
    file: u32,
    page: u64,
    end: &mut u64,
    vid: Vid,
    tag: u8,
    body: &[u8],
) -> Result<Option<Child>, Stop>
    requires len { cache.old.len ≡ (D.shown disk.old).page_len }
    requires page { IsPageLen (D.shown disk.old).page_len }
    requires pins { NoPins cache.old.notes }
    ensures put { IfOk result (λ o. (ps : List (List ℕ)) → end.old ≡ length ps → end.old + 1 < 2 ^ 64 → page < length ps → Shows cache.old (D.shown disk.old) file ps → PutShown (entry vid tag body.now) page file ps o end.new cache.new (D.shown disk.new)) }
    ensures others { OnOk result (OthersShown file cache.old (D.shown disk.old) cache.new (D.shown disk.new)) }
    ensures stays { SameCache cache.old cache.new }
    ensures reads { (D.shown disk.new).reads ≤ (D.shown disk.old).reads + 1 }
    ensures ok { OnOk result (Clean AnyFile (D.shown disk.old) (D.shown disk.new)) }
    ensures err { IfErr result (Broke Stop.Graph AnyFile (D.shown disk.old) (D.shown disk.new)) }
{
    let i = cache.load(disk, file, page)?;
    if put_in(cache.frame_mut(i), vid, tag, body) {
        return Ok(None);
    }
    let new = *end;
    *end = new.saturating_add(1);
    let key = split_page(cache, disk, file, i, new, vid, tag, body)?;
    Ok(Some(Child { key, page: new }))
}

// Puts the tuple that leads to a new page into an inner page.
fn put_child<D: Disk>(
    cache: &mut Cache,
    disk: &mut D,
    file: u32,
    page: u64,
    end: &mut u64,
    new: Child,
) -> Result<Option<Child>, Stop>
    requires len { cache.old.len ≡ (D.shown disk.old).page_len }
    requires page { IsPageLen (D.shown disk.old).page_len }
    requires pins { NoPins cache.old.notes }
    ensures put { IfOk result (λ o. (ps : List (List ℕ)) → end.old ≡ length ps → end.old + 1 < 2 ^ 64 → page < length ps → Shows cache.old (D.shown disk.old) file ps → PutShown (child new.key new.page) page file ps o end.new cache.new (D.shown disk.new)) }
    ensures others { OnOk result (OthersShown file cache.old (D.shown disk.old) cache.new (D.shown disk.new)) }
    ensures stays { SameCache cache.old cache.new }
    ensures reads { (D.shown disk.new).reads ≤ (D.shown disk.old).reads + 1 }
    ensures ok { OnOk result (Clean AnyFile (D.shown disk.old) (D.shown disk.new)) }
    ensures err { IfErr result (Broke Stop.Graph AnyFile (D.shown disk.old) (D.shown disk.new)) }
{
    let mut body = [0; 8];
    BigEndian::write_u64(&mut body, new.page);
    put_at(cache, disk, file, page, end, new.key, tags::CHILD, &body)
}
