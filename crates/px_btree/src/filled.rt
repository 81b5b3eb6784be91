// Pages that are filled from front to back.
ghost use Rattle.std.specs.Prelude.{◌≡◌, ◌≤◌, ◌<◌, ◌+◌, [], ℕ, List, length, OnOk, IfOk, IfErr, IsTrue, IsFalse};
ghost use Rattle.px_core.specs.Shown.{Clean, Broke};
ghost use Rattle.px_pages.specs.Entry.{entry};
ghost use Rattle.px_pages.specs.Page.{IsPageLen, tuples_of, count_of, used_at};
ghost use Rattle.px_cache.specs.View.{AnyFile, NoPins, Holds, OthersShown, Shows, SameCache};
ghost use Rattle.px_btree.specs.Fill.{Appends, WithTuples, IsEmptyPage, first_key_of};

use px_cache::Cache;
use px_core::{Disk, Stop, Vid};
use px_pages::{PageReader, PageWriter, Place, count, insert, set_link, used};

// The bytes of a tuple before its body.
const FRONT: usize = 13;

/// Adds a tuple behind those of a page. Where the page has no room for it, it changes nothing.
pub(crate) fn append_in(page: &mut [u8], key: Vid, tag: u8, body: &[u8])
    requires { IsPageLen (length page.old) }
    ensures { Appends (entry key tag body.now) page.old page.new }
{
    let behind = Place {
        index: count(page),
        at: used(page),
        tuple: None,
    };
    insert(page, behind, key, tag, body);
}

/// Whether a leaf takes no tuple with this body any more: it has two, and would be more than seven eighths full.
pub(crate) fn is_full(page: &[u8], body: &[u8]) -> bool
    requires { IsPageLen (length page.now) }
    ensures yes { IsTrue result → 2 ≤ count_of page.now }
    ensures no { IsFalse result → 2 ≤ count_of page.now → used_at page.now + 13 + length body.now ≤ length page.now }
{
    count(page) >= 2 && used(page) as usize + FRONT + body.len() > page.len() / 8 * 7
}

/// The key of the first tuple, or 0 where there is none.
pub(crate) fn first_key(page: &[u8]) -> Vid
    requires { IsPageLen (length page.now) }
    ensures { result ≡ first_key_of (tuples_of page.now) }
{
    let mut reader = PageReader::open(page);
    match reader.next(page) {
        Some(t) => t.key,
        None => 0,
    }
}

/// Adds a page without tuples at the end of a file, and answers the number of its frame.
pub(crate) fn begin_page<D: Disk>(
    cache: &mut Cache,
    disk: &mut D,
    file: u32,
    page: u64,
    kind: u8,
    link: u64,
) -> Result<u32, Stop>
    requires len { cache.old.len ≡ (D.shown disk.old).page_len }
    requires page { IsPageLen (D.shown disk.old).page_len }
    requires pins { NoPins cache.old.notes }
    ensures begun { OnOk result ((ps : List (List ℕ)) → page ≡ length ps → Shows cache.old (D.shown disk.old) file ps → WithTuples (D.shown disk.old).page_len kind link file [] ps cache.new (D.shown disk.new)) }
    ensures holds { IfOk result (λ i. Holds cache.new.notes i file page) }
    ensures at { IfOk result (λ i. i < length cache.new.notes) }
    ensures hand { IfOk result (λ i. cache.new.hand ≡ i + 1) }
    ensures others { OnOk result (OthersShown file cache.old (D.shown disk.old) cache.new (D.shown disk.new)) }
    ensures stays { SameCache cache.old cache.new }
    ensures reads { (D.shown disk.new).reads ≡ (D.shown disk.old).reads }
    ensures ok { OnOk result (Clean AnyFile (D.shown disk.old) (D.shown disk.new)) }
    ensures err { IfErr result (Broke Stop.Graph AnyFile (D.shown disk.old) (D.shown disk.new)) }
{
    let i = cache.new_page(disk, file, page)?;
    write_empty(cache.frame_mut(i), kind, link);
    Ok(i)
}

// Makes a page of this kind and link without tuples.
fn write_empty(page: &mut [u8], kind: u8, link: u64)
    requires { IsPageLen (length page.old) }
    ensures { IsEmptyPage (length page.old) kind link page.new }
{
    PageWriter::start(page, kind);
    set_link(page, link);
}
