// The levels of inner pages over leaves that stand one behind the other. The pages of a level do so too.
ghost use Rattle.std.specs.Prelude.{◌≡◌, ◌≤◌, ◌<◌, ◌+◌, ◌-◌, ◌*◌, ◌^◌, ◌++◌, [], ◌∷◌, ℕ, List, length, OnOk, IfOk, IfErr};
ghost use Rattle.px_core.specs.Shown.{Clean, Broke};
ghost use Rattle.px_pages.specs.Entry.{Entry};
ghost use Rattle.px_pages.specs.Page.{IsPageLen, used_of};
ghost use Rattle.px_cache.specs.View.{AnyFile, NoPins, OthersShown, Shows, SameCache};
ghost use Rattle.px_btree.specs.Search.{child as lead};
ghost use Rattle.px_btree.specs.Fill.{WithTuples, IsIn, IsLast, Indexes, low_in, leads, link_at};

use crate::filled::{append_in, begin_page, first_key};
use byteorder::{BigEndian, ByteOrder};
use px_cache::Cache;
use px_core::{Disk, Stop, Vid};
use px_pages::{kinds, tags};

// The bytes of a header, and of a tuple that leads to a page.
const HEADER: u64 = 32;

const CHILD_LEN: u64 = 21;

// Pages next to one another, of a level that begins at page `first`.
#[derive(Clone, Copy)]
struct Span {
    first: u64,
    from: u64,
    to: u64,
}

// How many children an inner page gets. It has room for one more.
fn most_children(cache: &Cache) -> u64
    requires some { 1 ≤ length cache.now.notes }
    requires page { IsPageLen cache.now.len }
    ensures two { 2 ≤ result }
    ensures room { 32 + 21 * (result + 1) ≤ cache.now.len }
{
    (cache.frame(0).len() as u64 - HEADER) / CHILD_LEN - 1
}

// Where the children of an inner page end that begin at `from`. The last page takes one more, where that would be alone.
fn cut(from: u64, end: u64, most: u64) -> u64
    requires two { from + 2 ≤ end }
    requires most { 2 ≤ most }
    requires small { end ≤ 2 ^ 62 }
    ensures some { from + 2 ≤ result }
    ensures within { result ≤ end }
    ensures few { result ≤ from + most + 1 }
    ensures rest { result < end → result + 2 ≤ end }
{
    if end - from - 1 <= most {
        return end;
    }
    from + most
}

// The link of a page of a level whose children end at `to`.
fn link_of(to: u64, end: u64, page: u64) -> u64
    requires { page ≤ 2 ^ 62 }
    ensures { result ≡ link_at to end (page + 1) }
{
    if to == end {
        return 0;
    }
    page + 2
}

// The least key of a page. It is that of its first tuple, but 0 for the first page of the level, which is not read.
fn low_of<D: Disk>(
    cache: &mut Cache,
    disk: &mut D,
    file: u32,
    first: u64,
    page: u64,
) -> Result<Vid, Stop>
    requires len { cache.old.len ≡ (D.shown disk.old).page_len }
    requires page_len { IsPageLen (D.shown disk.old).page_len }
    requires pins { NoPins cache.old.notes }
    ensures low { IfOk result (λ k. (ps : List (List ℕ)) → page < length ps → Shows cache.old (D.shown disk.old) file ps → (k ≡ low_in first ps page) × Shows cache.new (D.shown disk.new) file ps) }
    ensures last { OnOk result ((p : ℕ) → IsLast cache.old file p → IsIn cache.new file p) }
    ensures others { OnOk result (OthersShown file cache.old (D.shown disk.old) cache.new (D.shown disk.new)) }
    ensures stays { SameCache cache.old cache.new }
    ensures reads { (D.shown disk.new).reads ≤ (D.shown disk.old).reads + 1 }
    ensures ok { OnOk result (Clean AnyFile (D.shown disk.old) (D.shown disk.new)) }
    ensures err { IfErr result (Broke Stop.Graph AnyFile (D.shown disk.old) (D.shown disk.new)) }
{
    if page == first {
        return Ok(0);
    }
    let i = cache.load(disk, file, page)?;
    Ok(first_key(cache.frame(i)))
}

// Adds a child to the last page of the file.
fn add_child<D: Disk>(
    cache: &mut Cache,
    disk: &mut D,
    file: u32,
    page: u64,
    key: Vid,
    child: u64,
) -> Result<(), Stop>
    requires len { cache.old.len ≡ (D.shown disk.old).page_len }
    requires page_len { IsPageLen (D.shown disk.old).page_len }
    requires pins { NoPins cache.old.notes }
    ensures added { OnOk result ((ps : List (List ℕ)) (link : ℕ) (es : List Entry) → page ≡ length ps → used_of (es ++ lead key child ∷ []) ≤ (D.shown disk.old).page_len → WithTuples (D.shown disk.old).page_len 4 link file es ps cache.old (D.shown disk.old) → WithTuples (D.shown disk.old).page_len 4 link file (es ++ lead key child ∷ []) ps cache.new (D.shown disk.new)) }
    ensures last { OnOk result (IsLast cache.new file page) }
    ensures others { OnOk result (OthersShown file cache.old (D.shown disk.old) cache.new (D.shown disk.new)) }
    ensures stays { SameCache cache.old cache.new }
    ensures reads { IsIn cache.old file page → (D.shown disk.new).reads ≡ (D.shown disk.old).reads }
    ensures ok { OnOk result (Clean AnyFile (D.shown disk.old) (D.shown disk.new)) }
    ensures err { IfErr result (Broke Stop.Graph AnyFile (D.shown disk.old) (D.shown disk.new)) }
{
    let i = cache.load(disk, file, page)?;
    let mut body = [0; 8];
    BigEndian::write_u64(&mut body, child);
    append_in(cache.frame_mut(i), key, tags::CHILD, &body);
    Ok(())
}

// Adds an inner page with this link over pages of the level below. It reads each of them once.
fn add_inner<D: Disk>(
    cache: &mut Cache,
    disk: &mut D,
    file: u32,
    span: Span,
    page: u64,
    link: u64,
) -> Result<(), Stop>
    requires len { cache.old.len ≡ (D.shown disk.old).page_len }
    requires page_len { IsPageLen (D.shown disk.old).page_len }
    requires pins { NoPins cache.old.notes }
    requires order { span.from ≤ span.to }
    requires room { 32 + 21 * (span.to - span.from) ≤ (D.shown disk.old).page_len }
    ensures added { OnOk result ((ps : List (List ℕ)) → page ≡ length ps → span.to ≤ page → Shows cache.old (D.shown disk.old) file ps → WithTuples (D.shown disk.old).page_len 4 link file (leads span.first ps span.from (span.to - span.from)) ps cache.new (D.shown disk.new)) }
    ensures others { OnOk result (OthersShown file cache.old (D.shown disk.old) cache.new (D.shown disk.new)) }
    ensures stays { SameCache cache.old cache.new }
    ensures reads { (D.shown disk.new).reads + span.from ≤ (D.shown disk.old).reads + span.to }
    ensures ok { OnOk result (Clean AnyFile (D.shown disk.old) (D.shown disk.new)) }
    ensures err { IfErr result (Broke Stop.Graph AnyFile (D.shown disk.old) (D.shown disk.new)) }
{
    begin_page(cache, disk, file, page, kinds::BTREE_INNER, link)?;
    for child in span.from..span.to {
        let key = low_of(cache, disk, file, span.first, child)?;
        add_child(cache, disk, file, page, key, child)?;
    }
    Ok(())
}

/// Adds the level over the pages from `first` to `end`, and answers where it ends. Each of its pages has at least two children.
pub(crate) fn add_level<D: Disk>(
    cache: &mut Cache,
    disk: &mut D,
    file: u32,
    first: u64,
    end: u64,
) -> Result<u64, Stop>
    requires len { cache.old.len ≡ (D.shown disk.old).page_len }
    requires page { IsPageLen (D.shown disk.old).page_len }
    requires pins { NoPins cache.old.notes }
    requires two { first + 2 ≤ end }
    requires small { end ≤ 2 ^ 42 }
    ensures level { IfOk result (λ stop. (ps : List (List ℕ)) → end ≡ length ps → Shows cache.old (D.shown disk.old) file ps → Indexes (D.shown disk.old).page_len file first end end stop ps cache.new (D.shown disk.new)) }
    ensures some { IfOk result (λ stop. end < stop) }
    ensures half { IfOk result (λ stop. 2 * (stop - end) ≤ end - first) }
    ensures others { OnOk result (OthersShown file cache.old (D.shown disk.old) cache.new (D.shown disk.new)) }
    ensures stays { SameCache cache.old cache.new }
    ensures reads { (D.shown disk.new).reads + first ≤ (D.shown disk.old).reads + end }
    ensures ok { OnOk result (Clean AnyFile (D.shown disk.old) (D.shown disk.new)) }
    ensures err { IfErr result (Broke Stop.Graph AnyFile (D.shown disk.old) (D.shown disk.new)) }
{
    let most = most_children(cache);
    let mut from = first;
    let mut page = end;
    while from < end {
        let to = cut(from, end, most);
        let span = Span { first, from, to };
        add_inner(cache, disk, file, span, page, link_of(to, end, page))?;
        from = to;
        page += 1;
    }
    Ok(page)
}
