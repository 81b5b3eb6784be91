// A tree is filled from left to right. While it is, `togo` is how many pages may still be read for the vertices that came.
ghost use Rattle.std.specs.Prelude.{◌≡◌, ◌≤◌, ◌<◌, ◌+◌, ◌-◌, ◌*◌, ◌/◌, ◌^◌, ◌++◌, [], ◌∷◌, ℕ, true, length, min, OnOk, IfOk, IfErr, IsTrue, IsFalse};
ghost use Rattle.px_core.specs.Shown.{Clean, Broke};
ghost use Rattle.px_pages.specs.Entry.{Entry};
ghost use Rattle.px_pages.specs.Page.{IsPageLen};
ghost use Rattle.px_meaning.specs.Graph.{Graph, room_of};
ghost use Rattle.px_cache.specs.View.{AnyFile, NoPins, Holds, OthersShown, SameCache};
ghost use Rattle.px_store.specs.Desks.{IsReady, IsDone, SameDesk, AllBelow};
ghost use Rattle.px_btree.specs.Tree.{IsHeld, IsItem};
ghost use Rattle.px_btree.specs.Fill.{IsFilling, IsOpen};

use crate::filled::{append_in, begin_page, is_full};
use crate::inner::add_level;
use crate::tree::ClosedTree;
use px_cache::Cache;
use px_core::{Disk, Stop};
use px_pages::{kinds, set_link, tags};
use px_record::VertexBuf;
use px_store::Desk;

// No file has so many pages.
const MANY: u64 = 1 << 41;

impl ClosedTree {
    // The page of its last leaf.
    fn last_leaf(&self) -> u64
        ensures { result ≡ self.now.leaves - 1 }
    {
        self.leaves.saturating_sub(1)
    }

    // How many leaves it has.
    fn leaf_count(&self) -> u64
        ensures { result ≡ self.now.leaves }
    {
        self.leaves
    }

    // The link to the leaf behind its last one.
    fn next_link(&self) -> u64
        ensures { result ≡ min (self.now.leaves + 1) (2 ^ 64 - 1) }
    {
        self.leaves.saturating_add(1)
    }

    // Counts a leaf.
    fn count_leaf(&mut self)
        ensures { self.new ≡ record self.old { leaves = min (self.old.leaves + 1) (2 ^ 64 - 1); pages = min (self.old.leaves + 1) (2 ^ 64 - 1) } }
    {
        self.leaves = self.next_link();
        self.pages = self.leaves;
    }

    // Counts a page that may be read.
    fn count_read(&mut self)
        ensures { self.new ≡ record self.old { togo = min (self.old.togo + 1) (2 ^ 64 - 1) } }
    {
        self.togo = self.togo.saturating_add(1);
    }

    // Loads the last leaf, and where that is full begins the next. It answers the number of its frame.
    fn open_leaf<D: Disk>(
        &mut self,
        disk: &mut D,
        cache: &mut Cache,
        body: &[u8],
    ) -> Result<u32, Stop>
        requires len { cache.old.len ≡ (D.shown disk.old).page_len }
        requires page { IsPageLen (D.shown disk.old).page_len }
        requires pins { NoPins cache.old.notes }
        requires few { length cache.old.notes ≤ 65536 }
        ensures open { IfOk result (λ i. (l : Graph) (e : Entry) → e.body ≡ body.now → IsItem (D.shown disk.old).page_len e → AllBelow e.key l → IsFilling self.old cache.old (D.shown disk.old) l → IsOpen self.new cache.new (D.shown disk.new) l e i) }
        ensures holds { IfOk result (λ i. (p : ℕ) × Holds cache.new.notes i (8 * self.old.part) p) }
        ensures at { IfOk result (λ i. i < length cache.new.notes) }
        ensures others { OnOk result (OthersShown (8 * self.old.part) cache.old (D.shown disk.old) cache.new (D.shown disk.new)) }
        ensures stays { SameCache cache.old cache.new }
        ensures same { self.new ≡ record self.old { leaves = self.new.leaves; pages = self.new.pages } }
        ensures leaves { self.new.leaves ≤ self.old.leaves + 1 }
        ensures reads { (D.shown disk.new).reads ≤ (D.shown disk.old).reads + 1 }
        ensures ok { OnOk result (Clean AnyFile (D.shown disk.old) (D.shown disk.new)) }
        ensures err { IfErr result (Broke Stop.Graph AnyFile (D.shown disk.old) (D.shown disk.new)) }
    {
        let file = self.file();
        let i = cache.load(disk, file, self.last_leaf())?;
        if !is_full(cache.frame(i), body) {
            return Ok(i);
        }
        let next = self.leaf_count();
        set_link(cache.frame_mut(i), self.next_link());
        let j = begin_page(cache, disk, file, next, kinds::BTREE_LEAF, 0)?;
        self.count_leaf();
        Ok(j)
    }

    /// Takes a vertex above all before.
    pub(crate) fn bulk_put<D: Disk>(
        &mut self,
        disk: &mut D,
        desk: &mut Desk,
        v: &VertexBuf,
    ) -> Result<(), Stop>
        requires ready { IsReady true self.old.part desk.old (D.shown disk.old) }
        requires room { v.now.room ≡ room_of (D.shown disk.old).page_len }
        ensures fills { OnOk result ((l : Graph) → AllBelow v.now.vid l → IsFilling self.old desk.old.cache (D.shown disk.old) l → IsFilling self.new desk.new.cache (D.shown disk.new) (l ++ (v.now.vid, v.now.vertex) ∷ [])) }
        ensures leaves { self.new.leaves ≤ self.old.leaves + 1 }
        ensures reads { (D.shown disk.new).reads + self.new.togo ≤ (D.shown disk.old).reads + self.old.togo + 2 }
        ensures part { self.new.part ≡ self.old.part }
        ensures desk { SameDesk desk.old desk.new }
        ensures done { OnOk result (IsDone true self.old.part desk.old (D.shown disk.old) desk.new (D.shown disk.new)) }
        ensures err { IfErr result (Broke Stop.Graph AnyFile (D.shown disk.old) (D.shown disk.new)) }
    {
        let vid = v.vid();
        let body = v.body();
        let i = self.open_leaf(disk, &mut desk.cache, body)?;
        append_in(desk.cache.frame_mut(i), vid, tags::VERTEX, body);
        self.count_read();
        Ok(())
    }

    // Whether the reads that its leaves may ask for are counted.
    fn is_paid(&self) -> bool
        ensures yes { IsTrue result → (self.now.leaves ≤ 2 ^ 41) × (2 * self.now.leaves ≤ self.now.togo + 2) }
        ensures no { IsFalse result → self.now.leaves ≤ 2 ^ 41 → 2 * self.now.leaves ≤ self.now.togo + 2 → ⊥ }
    {
        self.leaves <= MANY && self.leaves <= self.togo / 2 + 1
    }

    // Its root and how many levels and pages it has.
    fn set_root(&mut self, root: u64, depth: u32, pages: u64)
        requires { (1 ≤ depth) × (depth ≤ 64) }
        ensures { self.new ≡ record self.old { root = root; depth = depth; pages = pages; togo = 0; mark = None } }
    {
        self.root = root;
        self.depth = depth;
        self.pages = pages;
        self.togo = 0;
        self.mark = None;
    }

    /// Ends the filling: makes the levels over the leaves.
    pub(crate) fn bulk_end<D: Disk>(&mut self, disk: &mut D, desk: &mut Desk) -> Result<(), Stop>
        requires { IsReady true self.old.part desk.old (D.shown disk.old) }
        ensures holds { OnOk result ((l : Graph) → IsFilling self.old desk.old.cache (D.shown disk.old) l → IsHeld self.new desk.new (D.shown disk.new) l) }
        ensures leaves { self.new.leaves ≡ self.old.leaves }
        ensures reads { (D.shown disk.new).reads ≤ (D.shown disk.old).reads + self.old.togo }
        ensures part { self.new.part ≡ self.old.part }
        ensures desk { SameDesk desk.old desk.new }
        ensures done { OnOk result (IsDone true self.old.part desk.old (D.shown disk.old) desk.new (D.shown disk.new)) }
        ensures err { IfErr result (Broke Stop.Graph AnyFile (D.shown disk.old) (D.shown disk.new)) }
    {
        if !self.is_paid() {
            return Ok(());
        }
        let file = self.file();
        let mut first = 0;
        let mut end = self.leaf_count();
        let mut depth = 1;
        while first + 1 < end {
            let stop = add_level(&mut desk.cache, disk, file, first, end)?;
            first = end;
            end = stop;
            depth += 1;
        }
        self.set_root(first, depth, end);
        Ok(())
    }
}
