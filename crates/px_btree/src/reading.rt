// The calls of the tree that read.
ghost use Rattle.std.specs.Prelude.{◌≡◌, ◌≤◌, ◌<◌, ◌+◌, ◌*◌, ◌++◌, [], true, is_some, OnOk, IfOk, IfErr, IsFalse};
ghost use Rattle.px_core.specs.Shown.{Broke};
ghost use Rattle.px_meaning.specs.Graph.{Graph, fresh, lookup, vertex_or_fresh, room_of};
ghost use Rattle.px_cache.specs.View.{AnyFile};
ghost use Rattle.px_store.specs.Desks.{IsReady, IsDone, SameDesk, SameRoom};
ghost use Rattle.px_btree.specs.Tree.{IsHeld};
ghost use Rattle.px_btree.specs.Scan.{IsScan};

use crate::leaf::take_into;
use crate::tree::ClosedTree;
use px_core::{Disk, Stop, Vid};
use px_record::VertexBuf;
use px_store::Desk;

impl ClosedTree {
    // Its file on the graph disk.
    #[inline]
    pub(crate) fn file(&self) -> u32
        ensures file { result ≡ 8 * self.now.part }
        ensures least { 1 ≤ self.now.depth }
        ensures most { self.now.depth ≤ 64 }
    {
        8 * self.part
    }

    /// Gives the vertex of a vid, or the fresh one where it is not there.
    pub(crate) fn get<D: Disk>(
        &mut self,
        disk: &mut D,
        desk: &mut Desk,
        vid: Vid,
        into: &mut VertexBuf,
    ) -> Result<bool, Stop>
        requires ready { IsReady true self.old.part desk.old (D.shown disk.old) }
        requires room { into.old.room ≡ room_of (D.shown disk.old).page_len }
        ensures found { IfOk result (λ b. (l : Graph) → IsHeld self.old desk.old (D.shown disk.old) l → (b ≡ is_some (lookup vid l)) × (into.new.vertex ≡ vertex_or_fresh (lookup vid l))) }
        ensures vid { OnOk result (into.new.vid ≡ vid) }
        ensures fresh { IfOk result (λ b. IsFalse b → into.new.vertex ≡ fresh) }
        ensures into { SameRoom into.old into.new }
        ensures holds { OnOk result ((l : Graph) → IsHeld self.old desk.old (D.shown disk.old) l → IsHeld self.new desk.new (D.shown disk.new) l) }
        ensures scans { OnOk result ((a b : Graph) → IsScan self.old desk.old (D.shown disk.old) a b → IsScan self.new desk.new (D.shown disk.new) a b) }
        ensures same { self.new ≡ record self.old { mark = self.new.mark } }
        ensures reads { (D.shown disk.new).reads ≤ (D.shown disk.old).reads + 64 }
        ensures desk { SameDesk desk.old desk.new }
        ensures done { OnOk result (IsDone true self.old.part desk.old (D.shown disk.old) desk.new (D.shown disk.new)) }
        ensures err { IfErr result (Broke Stop.Graph AnyFile (D.shown disk.old) (D.shown disk.new)) }
    {
        let spot = self.locate(&mut desk.cache, disk, vid)?;
        Ok(take_into(desk.cache.frame(spot.frame), spot.place, vid, into))
    }
}
