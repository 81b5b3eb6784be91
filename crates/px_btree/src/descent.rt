// The way from the root to a leaf.
ghost use Rattle.std.specs.Prelude.{◌≡◌, ◌≤◌, ◌<◌, ◌+◌, ℕ, List, length, OnOk, IfOk, IfErr};
ghost use Rattle.px_core.specs.Shown.{Clean, Broke};
ghost use Rattle.px_pages.specs.Page.{IsPageLen};
ghost use Rattle.px_cache.specs.View.{AnyFile, NoPins, Holds, OthersShown, pins, Shows, SameCache};
ghost use Rattle.px_btree.specs.Tree.{Piece};
ghost use Rattle.px_btree.specs.Find.{CameTo, Goes};

use crate::locate::Spot;
use crate::page::child_in;
use px_cache::Cache;
use px_core::{Disk, Stop, Vid};
use px_pages::find;

/// Loads the leaf under which a vid lies, and finds the vid's place in it. It reads a page a level.
pub(crate) fn descend<D: Disk>(
    cache: &mut Cache,
    disk: &mut D,
    file: u32,
    root: u64,
    depth: u32,
    vid: Vid,
) -> Result<Spot, Stop>
    requires len { cache.old.len ≡ (D.shown disk.old).page_len }
    requires page { IsPageLen (D.shown disk.old).page_len }
    requires pins { NoPins cache.old.notes }
    requires depth { 1 ≤ depth }
    ensures goes { IfOk result (λ spot. Goes root depth cache.old (D.shown disk.old) vid file spot cache.new (D.shown disk.new)) }
    ensures others { OnOk result (OthersShown file cache.old (D.shown disk.old) cache.new (D.shown disk.new)) }
    ensures at { IfOk result (λ spot. spot.frame < length cache.new.notes) }
    ensures hand { IfOk result (λ spot. cache.new.hand ≡ spot.frame + 1) }
    ensures holds { IfOk result (λ spot. Holds cache.new.notes spot.frame file spot.page) }
    ensures stays { SameCache cache.old cache.new }
    ensures reads { (D.shown disk.new).reads ≤ (D.shown disk.old).reads + depth }
    ensures ok { OnOk result (Clean AnyFile (D.shown disk.old) (D.shown disk.new)) }
    ensures err { IfErr result (Broke Stop.Graph AnyFile (D.shown disk.old) (D.shown disk.new)) }
{
    let mut page = root;
    for level in 1..depth {
        page = step(cache, disk, file, page, vid)?;
    }
    let frame = cache.load(disk, file, page)?;
    let leaf = cache.frame(frame);
    let place = find(leaf, vid);
    Ok(Spot { frame, page, place })
}

// Loads an inner page, and answers the page under which a vid lies.
pub(crate) fn step<D: Disk>(
    cache: &mut Cache,
    disk: &mut D,
    file: u32,
    page: u64,
    vid: Vid,
) -> Result<u64, Stop>
    requires len { cache.old.len ≡ (D.shown disk.old).page_len }
    requires page { IsPageLen (D.shown disk.old).page_len }
    requires pins { NoPins cache.old.notes }
    ensures down { IfOk result (λ p. (k len : ℕ) (ps : List (List ℕ)) (levels : List (List Piece)) → CameTo vid k file len levels page cache.old (D.shown disk.old) ps → k + 2 ≤ length levels → CameTo vid (k + 1) file len levels p cache.new (D.shown disk.new) ps) }
    ensures others { OnOk result (OthersShown file cache.old (D.shown disk.old) cache.new (D.shown disk.new)) }
    ensures stays { SameCache cache.old cache.new }
    ensures reads { (D.shown disk.new).reads ≤ (D.shown disk.old).reads + 1 }
    ensures ok { OnOk result (Clean AnyFile (D.shown disk.old) (D.shown disk.new)) }
    ensures err { IfErr result (Broke Stop.Graph AnyFile (D.shown disk.old) (D.shown disk.new)) }
{
    let i = cache.load(disk, file, page)?;
    Ok(child_in(cache.frame(i), vid))
}
