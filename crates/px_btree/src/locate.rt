// The place of a vid is found from that of the last call, or else on the way from the root.
ghost use Rattle.std.specs.Prelude.{◌≡◌, ◌⊎◌, ◌≤◌, ◌<◌, ◌+◌, ◌*◌, ℕ, List, length, is_some, true, Some, None, OnOk, OnErr, IfOk, IfErr, IfSome, IsTrue};
ghost use Rattle.px_core.specs.Shown.{Shown, Clean, Broke};
ghost use Rattle.px_meaning.specs.Graph.{Graph};
ghost use Rattle.px_pages.specs.Page.{IsPageLen, link_of};
ghost use Rattle.px_cache.specs.View.{AnyFile, NoPins, Holds, OthersShown, Shows, ShownAfterLoad, SameCache};
ghost use Rattle.px_btree.specs.Tree.{Piece, IsStack, FirstIs, MarkFits, IsHeld, leaves_of};
ghost use Rattle.px_btree.specs.Find.{IsSpot, Finds, mark_at};

use crate::descent::descend;
use crate::tree::{ClosedTree, Mark};
use px_cache::Cache;
use px_core::{Disk, Stop, Vid};
use px_pages::{Place, find_from, link};

/// Where a vid lies: the frame and the number of its leaf, and its place in it.
#[derive(Clone, Copy)]
pub(crate) struct Spot {
    pub(crate) frame: u32,
    pub(crate) page: u64,
    pub(crate) place: Place,
}

// Whether a leaf with smaller keys is the one of a vid whose place in it is this.
fn is_leaf_of(page: &[u8], place: Place) -> bool
    requires { IsPageLen (length page.now) }
    ensures { IsTrue result → (is_some place.tuple ≡ true) ⊎ (link_of page.now ≡ 0) }
{
    place.tuple.is_some() || link(page) == 0
}

// Finds a vid from the place of a smaller one, where it lies in the same leaf for certain. It reads one page at most.
fn find_near<D: Disk>(
    cache: &mut Cache,
    disk: &mut D,
    file: u32,
    mark: Mark,
    vid: Vid,
) -> Result<Option<Spot>, Stop>
    requires len { cache.old.len ≡ (D.shown disk.old).page_len }
    requires page { IsPageLen (D.shown disk.old).page_len }
    requires pins { NoPins cache.old.notes }
    requires order { mark.key ≤ vid }
    ensures near { IfOk result (λ o. IfSome o (λ spot. (ps : List (List ℕ)) (levels : List (List Piece)) → Shows cache.old (D.shown disk.old) file ps → IsStack (D.shown disk.old).page_len ps levels → FirstIs 0 (leaves_of levels) → MarkFits (Some mark) levels → IsSpot vid file levels spot cache.new (D.shown disk.new) ps)) }
    ensures shows { OnOk result (ShownAfterLoad file mark.page cache.old (D.shown disk.old) cache.new (D.shown disk.new)) }
    ensures at { IfOk result (λ o. IfSome o (λ spot. spot.frame < length cache.new.notes)) }
    ensures holds { IfOk result (λ o. IfSome o (λ spot. Holds cache.new.notes spot.frame file spot.page)) }
    ensures stays { SameCache cache.old cache.new }
    ensures reads { (D.shown disk.new).reads ≤ (D.shown disk.old).reads + 1 }
    ensures ok { OnOk result (Clean AnyFile (D.shown disk.old) (D.shown disk.new)) }
    ensures err { IfErr result (Broke Stop.Graph AnyFile (D.shown disk.old) (D.shown disk.new)) }
{
    let frame = cache.load(disk, file, mark.page)?;
    let leaf = cache.frame(frame);
    let place = find_from(leaf, mark.place, vid);
    if is_leaf_of(leaf, place) {
        return Ok(Some(Spot {
            frame,
            page: mark.page,
            place,
        }));
    }
    Ok(None)
}

impl ClosedTree {
    ghost use Rattle.px_store.specs.declared.shared.Desk.{Desk};

    // The place of the last call, where a vid may be found from it within the reads of a call.
    fn mark_for(&self, vid: Vid) -> Option<Mark>
        ensures is { IfSome result (λ m. self.now.mark ≡ Some m) }
        ensures order { IfSome result (λ m. m.key ≤ vid) }
        ensures depth { IfSome result (λ m. self.now.depth < 64) }
    {
        match self.mark {
            Some(mark) if mark.key <= vid && self.depth < 64 => Some(mark),
            _ => None,
        }
    }

    // Finds a vid from the place of the last call.
    fn near<D: Disk>(&self, cache: &mut Cache, disk: &mut D, vid: Vid) -> Result<Option<Spot>, Stop>
        requires len { cache.old.len ≡ (D.shown disk.old).page_len }
        requires page { IsPageLen (D.shown disk.old).page_len }
        requires pins { NoPins cache.old.notes }
        ensures near { IfOk result (λ o. IfSome o (λ spot. Finds self.now cache.old (D.shown disk.old) vid spot cache.new (D.shown disk.new))) }
        ensures shows { OnOk result ((ps : List (List ℕ)) (levels : List (List Piece)) → Shows cache.old (D.shown disk.old) (8 * self.now.part) ps → IsStack (D.shown disk.old).page_len ps levels → FirstIs 0 (leaves_of levels) → MarkFits self.now.mark levels → Shows cache.new (D.shown disk.new) (8 * self.now.part) ps) }
        ensures others { OnOk result (OthersShown (8 * self.now.part) cache.old (D.shown disk.old) cache.new (D.shown disk.new)) }
        ensures at { IfOk result (λ o. IfSome o (λ spot. spot.frame < length cache.new.notes)) }
        ensures holds { IfOk result (λ o. IfSome o (λ spot. Holds cache.new.notes spot.frame (8 * self.now.part) spot.page)) }
        ensures stays { SameCache cache.old cache.new }
        ensures reads { (D.shown disk.new).reads + self.now.depth ≤ (D.shown disk.old).reads + 64 }
        ensures one { (D.shown disk.new).reads ≤ (D.shown disk.old).reads + 1 }
        ensures ok { OnOk result (Clean AnyFile (D.shown disk.old) (D.shown disk.new)) }
        ensures err { IfErr result (Broke Stop.Graph AnyFile (D.shown disk.old) (D.shown disk.new)) }
    {
        let file = self.file();
        match self.mark_for(vid) {
            Some(mark) => {
                let found = find_near(cache, disk, file, mark, vid)?;
                Ok(found)
            }
            None => Ok(None),
        }
    }

    // Finds a vid.
    fn find<D: Disk>(&self, cache: &mut Cache, disk: &mut D, vid: Vid) -> Result<Spot, Stop>
        requires len { cache.old.len ≡ (D.shown disk.old).page_len }
        requires page { IsPageLen (D.shown disk.old).page_len }
        requires pins { NoPins cache.old.notes }
        ensures finds { IfOk result (λ spot. Finds self.now cache.old (D.shown disk.old) vid spot cache.new (D.shown disk.new)) }
        ensures others { OnOk result (OthersShown (8 * self.now.part) cache.old (D.shown disk.old) cache.new (D.shown disk.new)) }
        ensures at { IfOk result (λ spot. spot.frame < length cache.new.notes) }
        ensures holds { IfOk result (λ spot. Holds cache.new.notes spot.frame (8 * self.now.part) spot.page) }
        ensures stays { SameCache cache.old cache.new }
        ensures reads { (D.shown disk.new).reads ≤ (D.shown disk.old).reads + 64 }
        ensures few { (D.shown disk.new).reads ≤ (D.shown disk.old).reads + self.now.depth + 1 }
        ensures ok { OnOk result (Clean AnyFile (D.shown disk.old) (D.shown disk.new)) }
        ensures err { IfErr result (Broke Stop.Graph AnyFile (D.shown disk.old) (D.shown disk.new)) }
    {
        let file = self.file();
        match self.near(cache, disk, vid)? {
            Some(near) => Ok(near),
            None => {
                let spot = descend(cache, disk, file, self.root, self.depth, vid)?;
                Ok(spot)
            }
        }
    }

    /// Finds a vid, and remembers its place.
    pub(crate) fn locate<D: Disk>(
        &mut self,
        cache: &mut Cache,
        disk: &mut D,
        vid: Vid,
    ) -> Result<Spot, Stop>
        requires len { cache.old.len ≡ (D.shown disk.old).page_len }
        requires page { IsPageLen (D.shown disk.old).page_len }
        requires pins { NoPins cache.old.notes }
        ensures finds { IfOk result (λ spot. Finds self.old cache.old (D.shown disk.old) vid spot cache.new (D.shown disk.new)) }
        ensures marks { IfOk result (λ spot. self.new ≡ record self.old { mark = Some (mark_at vid spot) }) }
        ensures same_err { OnErr result (self.new ≡ self.old) }
        ensures others { OnOk result (OthersShown (8 * self.old.part) cache.old (D.shown disk.old) cache.new (D.shown disk.new)) }
        ensures at { IfOk result (λ spot. spot.frame < length cache.new.notes) }
        ensures holds { IfOk result (λ spot. Holds cache.new.notes spot.frame (8 * self.old.part) spot.page) }
        ensures stays { SameCache cache.old cache.new }
        ensures reads { (D.shown disk.new).reads ≤ (D.shown disk.old).reads + 64 }
        ensures few { (D.shown disk.new).reads ≤ (D.shown disk.old).reads + self.old.depth + 1 }
        ensures ok { OnOk result (Clean AnyFile (D.shown disk.old) (D.shown disk.new)) }
        ensures err { IfErr result (Broke Stop.Graph AnyFile (D.shown disk.old) (D.shown disk.new)) }
    {
        let spot = self.find(cache, disk, vid)?;
        self.mark = Some(Mark {
            page: spot.page,
            key: vid,
            place: spot.place,
        });
        Ok(spot)
    }

    /// Forgets the place of the last call, as where a page is cut.
    #[tactic(auto, using(crate::proofs::Marking::held_forgot))]
    pub(crate) fn forget_place(&mut self)
        ensures same { self.new ≡ record self.old { mark = None } }
        ensures holds { (d : Desk) (s : Shown) (l : Graph) → IsHeld self.old d s l → IsHeld self.new d s l }
    {
        self.mark = None;
    }
}
