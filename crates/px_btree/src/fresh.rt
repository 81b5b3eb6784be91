// A tree begins, with one empty leaf.
ghost use Rattle.std.specs.Prelude.{◌≡◌, ◌≤◌, ◌+◌, ◌*◌, ◌++◌, [], ◌∷◌, ℕ, List, true, length, OnOk, IfErr, None};
ghost use Rattle.std.specs.Bool.{OnTrue};
ghost use Rattle.px_core.specs.Shown.{Clean, Broke};
ghost use Rattle.px_pages.specs.Page.{IsPageLen, IsMade};
ghost use Rattle.px_cache.specs.View.{AnyFile, NoPins, OthersShown, Shows, pins, SameCache};
ghost use Rattle.px_store.specs.Desks.{IsReady, IsDone, SameDesk};
ghost use Rattle.px_pages.specs.Page.{writer_of};
ghost use Rattle.px_btree.specs.Tree.{IsHeld, started_in};
ghost use Rattle.px_btree.specs.Fresh.{WithPage};
ghost use Rattle.px_btree.specs.Fill.{IsFilling};

use crate::tree::ClosedTree;
use px_cache::Cache;
use px_core::{Disk, Failed, Stop};
use px_pages::{PageWriter, kinds};
use px_store::Desk;

// Makes a file empty.
fn clear_file<D: Disk>(cache: &mut Cache, disk: &mut D, file: u32) -> Result<(), Stop>
    requires pins { NoPins cache.old.notes }
    ensures empty { OnOk result (OnTrue (D.shown disk.new).tells (Shows cache.new (D.shown disk.new) file [])) }
    ensures others { OnOk result (OthersShown file cache.old (D.shown disk.old) cache.new (D.shown disk.new)) }
    ensures pins { NoPins cache.new.notes }
    ensures notes { length cache.new.notes ≡ length cache.old.notes }
    ensures len { cache.new.len ≡ cache.old.len }
    ensures reads { (D.shown disk.new).reads ≡ (D.shown disk.old).reads }
    ensures ok { OnOk result (Clean AnyFile (D.shown disk.old) (D.shown disk.new)) }
    ensures err { IfErr result (Broke Stop.Graph AnyFile (D.shown disk.old) (D.shown disk.new)) }
{
    cache.forget(file);
    match disk.clear(file) {
        Ok(()) => Ok(()),
        Err(Failed) => Err(Stop::Graph),
    }
}

// Adds a page of this kind without tuples at the end of a file, and answers the number of its frame.
fn add_page<D: Disk>(
    cache: &mut Cache,
    disk: &mut D,
    file: u32,
    page: u64,
    kind: u8,
) -> Result<u32, Stop>
    requires len { cache.old.len ≡ (D.shown disk.old).page_len }
    requires page { IsPageLen (D.shown disk.old).page_len }
    requires pins { NoPins cache.old.notes }
    ensures added { OnOk result ((ps : List (List ℕ)) → page ≡ length ps → Shows cache.old (D.shown disk.old) file ps → WithPage (D.shown disk.old).page_len kind file ps cache.new (D.shown disk.new)) }
    ensures others { OnOk result (OthersShown file cache.old (D.shown disk.old) cache.new (D.shown disk.new)) }
    ensures stays { SameCache cache.old cache.new }
    ensures reads { (D.shown disk.new).reads ≡ (D.shown disk.old).reads }
    ensures ok { OnOk result (Clean AnyFile (D.shown disk.old) (D.shown disk.new)) }
    ensures err { IfErr result (Broke Stop.Graph AnyFile (D.shown disk.old) (D.shown disk.new)) }
{
    let i = cache.new_page(disk, file, page)?;
    PageWriter::start(cache.frame_mut(i), kind);
    Ok(i)
}

impl ClosedTree {
    /// Makes it empty: its file has one leaf without vertices.
    pub(crate) fn start<D: Disk>(&mut self, disk: &mut D, desk: &mut Desk) -> Result<(), Stop>
        requires { IsReady true self.old.part desk.old (D.shown disk.old) }
        ensures holds { OnOk result (OnTrue (D.shown disk.new).tells (IsHeld self.new desk.new (D.shown disk.new) [])) }
        ensures fills { OnOk result (OnTrue (D.shown disk.new).tells (IsFilling self.new desk.new.cache (D.shown disk.new) [])) }
        ensures fresh { self.new ≡ started_in self.old.part }
        ensures reads { (D.shown disk.new).reads ≡ (D.shown disk.old).reads }
        ensures desk { SameDesk desk.old desk.new }
        ensures done { OnOk result (IsDone true self.old.part desk.old (D.shown disk.old) desk.new (D.shown disk.new)) }
        ensures err { IfErr result (Broke Stop.Graph AnyFile (D.shown disk.old) (D.shown disk.new)) }
    {
        let file = self.file();
        self.begin();
        clear_file(&mut desk.cache, disk, file)?;
        add_page(&mut desk.cache, disk, file, 0, kinds::BTREE_LEAF)?;
        Ok(())
    }

    // The numbers of a tree with one empty leaf.
    fn begin(&mut self)
        ensures { self.new ≡ started_in self.old.part }
    {
        self.root = 0;
        self.depth = 1;
        self.pages = 1;
        self.leaves = 1;
        self.at = 0;
        self.togo = 0;
        self.here = None;
        self.mark = None;
    }
}
