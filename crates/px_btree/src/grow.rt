// A vertex is put wherever there is room for it, and a tree whose root was cut grows by a level.
ghost use Rattle.std.specs.Prelude.{◌≡◌, ◌≤◌, ◌<◌, ◌+◌, ◌*◌, ◌^◌, [], ◌∷◌, ℕ, List, true, length, OnOk, IfOk, IfErr};
ghost use Rattle.px_core.specs.Shown.{Clean, Broke};
ghost use Rattle.px_pages.specs.Page.{IsPageLen, IsMade, writer_of};
ghost use Rattle.px_meaning.specs.Graph.{Graph, put as put_item, room_of};
ghost use Rattle.px_cache.specs.View.{AnyFile, NoPins, OthersShown, SameCache, Shows};
ghost use Rattle.px_store.specs.Desks.{IsReady, IsDone, SameDesk};
ghost use Rattle.px_btree.specs.Search.{child};
ghost use Rattle.px_btree.specs.Tree.{IsHeld};
ghost use Rattle.px_btree.specs.Rise.{WithRoot, Owes};

use crate::insert::put_below;
use crate::tree::ClosedTree;
use byteorder::{BigEndian, ByteOrder};
use px_cache::Cache;
use px_core::{Disk, Stop};
use px_pages::{Child, PageWriter, kinds, tags};
use px_record::VertexBuf;
use px_store::Desk;

// The most levels that a tree may have.
const LEVELS: u32 = 64;

// Makes it an inner page with two children, the first of which has the least key 0.
fn write_root(page: &mut [u8], left: u64, right: Child)
    requires { IsPageLen (length page.old) }
    ensures { (len : ℕ) → length page.old ≡ len → IsMade (writer_of len (child 0 left ∷ child right.key right.page ∷ [])) 4 0 (child 0 left ∷ child right.key right.page ∷ []) page.new }
{
    let mut body = [0; 8];
    let mut writer = PageWriter::start(page, kinds::BTREE_INNER);
    BigEndian::write_u64(&mut body, left);
    writer.append(page, 0, tags::CHILD, &body);
    BigEndian::write_u64(&mut body, right.page);
    writer.append(page, right.key, tags::CHILD, &body);
}

// Adds a root with two children at the end of a file.
fn add_root<D: Disk>(
    cache: &mut Cache,
    disk: &mut D,
    file: u32,
    page: u64,
    left: u64,
    right: Child,
) -> Result<(), Stop>
    requires len { cache.old.len ≡ (D.shown disk.old).page_len }
    requires page { IsPageLen (D.shown disk.old).page_len }
    requires pins { NoPins cache.old.notes }
    ensures added { OnOk result ((ps : List (List ℕ)) → page ≡ length ps → Shows cache.old (D.shown disk.old) file ps → WithRoot (D.shown disk.old).page_len file left right ps cache.new (D.shown disk.new)) }
    ensures others { OnOk result (OthersShown file cache.old (D.shown disk.old) cache.new (D.shown disk.new)) }
    ensures stays { SameCache cache.old cache.new }
    ensures reads { (D.shown disk.new).reads ≤ (D.shown disk.old).reads }
    ensures ok { OnOk result (Clean AnyFile (D.shown disk.old) (D.shown disk.new)) }
    ensures err { IfErr result (Broke Stop.Graph AnyFile (D.shown disk.old) (D.shown disk.new)) }
{
    let i = cache.new_page(disk, file, page)?;
    write_root(cache.frame_mut(i), left, right);
    Ok(())
}

impl ClosedTree {
    /// Puts a vertex from the root on, and cuts pages that have no room.
    pub(crate) fn put_anew<D: Disk>(
        &mut self,
        disk: &mut D,
        desk: &mut Desk,
        v: &VertexBuf,
    ) -> Result<(), Stop>
        requires ready { IsReady true self.old.part desk.old (D.shown disk.old) }
        requires room { v.now.room ≡ room_of (D.shown disk.old).page_len }
        requires no_mark { self.old.mark ≡ None }
        ensures holds { OnOk result ((l : Graph) → IsHeld self.old desk.old (D.shown disk.old) l → IsHeld self.new desk.new (D.shown disk.new) (put_item v.now.vid v.now.vertex l)) }
        ensures leaves { self.new.leaves ≤ self.old.leaves + 1 }
        ensures reads { (D.shown disk.new).reads ≤ (D.shown disk.old).reads + 2 * self.old.depth }
        ensures part { self.new.part ≡ self.old.part }
        ensures desk { SameDesk desk.old desk.new }
        ensures done { OnOk result (IsDone true self.old.part desk.old (D.shown disk.old) desk.new (D.shown disk.new)) }
        ensures err { IfErr result (Broke Stop.Graph AnyFile (D.shown disk.old) (D.shown disk.new)) }
    {
        let file = self.file();
        let vid = v.vid();
        let mut end = self.pages;
        let owed = put_below(
            &mut desk.cache,
            disk,
            file,
            self.root,
            self.depth - 1,
            &mut end,
            vid,
            v.body(),
        )?;
        self.count(end);
        match owed {
            Some(right) => self.grow(disk, desk, right),
            None => Ok(()),
        }
    }

    // Counts a new leaf where there are new pages.
    fn count(&mut self, end: u64)
        ensures same { end ≡ self.old.pages → self.new.leaves ≡ self.old.leaves }
        ensures more { self.old.pages < end → self.old.leaves + 1 < 2 ^ 64 → self.new.leaves ≡ self.old.leaves + 1 }
        ensures most { self.new.leaves ≤ self.old.leaves + 1 }
        ensures others { self.new ≡ record self.old { pages = end; leaves = self.new.leaves } }
    {
        if end != self.pages {
            self.leaves = self.leaves.saturating_add(1);
        }
        self.pages = end;
    }

    // Adds a root over the one before and a new page, where the tree may have one level more.
    fn grow<D: Disk>(&mut self, disk: &mut D, desk: &mut Desk, right: Child) -> Result<(), Stop>
        requires ready { IsReady true self.old.part desk.old (D.shown disk.old) }
        ensures holds { OnOk result ((l : Graph) → Owes self.old right desk.old (D.shown disk.old) l → IsHeld self.new desk.new (D.shown disk.new) l) }
        ensures leaves { self.new.leaves ≡ self.old.leaves }
        ensures reads { (D.shown disk.new).reads ≤ (D.shown disk.old).reads }
        ensures part { self.new.part ≡ self.old.part }
        ensures desk { SameDesk desk.old desk.new }
        ensures done { OnOk result (IsDone true self.old.part desk.old (D.shown disk.old) desk.new (D.shown disk.new)) }
        ensures err { IfErr result (Broke Stop.Graph AnyFile (D.shown disk.old) (D.shown disk.new)) }
    {
        let file = self.file();
        if self.depth >= LEVELS {
            return Ok(());
        }
        let page = self.pages;
        add_root(&mut desk.cache, disk, file, page, self.root, right)?;
        self.root = page;
        self.pages = page.saturating_add(1);
        self.depth += 1;
        Ok(())
    }
}
