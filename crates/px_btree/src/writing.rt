// The calls of the tree that write.
ghost use Rattle.std.specs.Prelude.{◌≡◌, ◌≤◌, ◌<◌, ◌+◌, ◌*◌, true, is_some, OnOk, IfOk, IfErr, IsTrue, IsFalse};
ghost use Rattle.px_core.specs.Shown.{Broke};
ghost use Rattle.px_meaning.specs.Graph.{Graph, lookup, put as put_item, delete as delete_item, room_of};
ghost use Rattle.px_cache.specs.View.{AnyFile};
ghost use Rattle.px_store.specs.Desks.{IsReady, IsDone, SameDesk};
ghost use Rattle.px_btree.specs.Tree.{IsHeld};

use crate::page::{put_tuple_at, remove_tuple_at};
use crate::tree::ClosedTree;
use px_core::{Disk, Stop, Vid};
use px_pages::tags;
use px_record::VertexBuf;
use px_store::Desk;

// The most levels at which a place may be looked for twice within the reads of a put.
const LOW: u32 = 42;

impl ClosedTree {
    /// Puts a vertex into the leaf where its vid lies, or answers false where that has no room for it.
    pub(crate) fn put_here<D: Disk>(
        &mut self,
        disk: &mut D,
        desk: &mut Desk,
        v: &VertexBuf,
    ) -> Result<bool, Stop>
        requires ready { IsReady true self.old.part desk.old (D.shown disk.old) }
        requires room { v.now.room ≡ room_of (D.shown disk.old).page_len }
        ensures put { IfOk result (λ there. IsTrue there → (l : Graph) → IsHeld self.old desk.old (D.shown disk.old) l → IsHeld self.new desk.new (D.shown disk.new) (put_item v.now.vid v.now.vertex l)) }
        ensures holds { IfOk result (λ there. IsFalse there → (l : Graph) → IsHeld self.old desk.old (D.shown disk.old) l → IsHeld self.new desk.new (D.shown disk.new) l) }
        ensures same { self.new ≡ record self.old { mark = self.new.mark } }
        ensures reads { (D.shown disk.new).reads ≤ (D.shown disk.old).reads + 64 }
        ensures few { (D.shown disk.new).reads ≤ (D.shown disk.old).reads + self.old.depth + 1 }
        ensures desk { SameDesk desk.old desk.new }
        ensures done { OnOk result (IsDone true self.old.part desk.old (D.shown disk.old) desk.new (D.shown disk.new)) }
        ensures err { IfErr result (Broke Stop.Graph AnyFile (D.shown disk.old) (D.shown disk.new)) }
    {
        let vid = v.vid();
        let spot = self.locate(&mut desk.cache, disk, vid)?;
        let leaf = desk.cache.frame_mut(spot.frame);
        Ok(put_tuple_at(leaf, spot.place, vid, tags::VERTEX, v.body()))
    }

    // Does so where the tree is low enough for a put from the root on to come after it.
    fn put_near<D: Disk>(
        &mut self,
        disk: &mut D,
        desk: &mut Desk,
        v: &VertexBuf,
    ) -> Result<bool, Stop>
        requires ready { IsReady true self.old.part desk.old (D.shown disk.old) }
        requires room { v.now.room ≡ room_of (D.shown disk.old).page_len }
        ensures put { IfOk result (λ there. IsTrue there → (l : Graph) → IsHeld self.old desk.old (D.shown disk.old) l → IsHeld self.new desk.new (D.shown disk.new) (put_item v.now.vid v.now.vertex l)) }
        ensures holds { IfOk result (λ there. IsFalse there → (l : Graph) → IsHeld self.old desk.old (D.shown disk.old) l → IsHeld self.new desk.new (D.shown disk.new) l) }
        ensures same { self.new ≡ record self.old { mark = self.new.mark } }
        ensures reads { (D.shown disk.new).reads + 2 * self.old.depth ≤ (D.shown disk.old).reads + 128 }
        ensures desk { SameDesk desk.old desk.new }
        ensures done { OnOk result (IsDone true self.old.part desk.old (D.shown disk.old) desk.new (D.shown disk.new)) }
        ensures err { IfErr result (Broke Stop.Graph AnyFile (D.shown disk.old) (D.shown disk.new)) }
    {
        if self.depth() > LOW {
            return Ok(false);
        }
        self.put_here(disk, desk, v)
    }

    /// Puts a vertex, in the place of that with its vid.
    pub(crate) fn put<D: Disk>(
        &mut self,
        disk: &mut D,
        desk: &mut Desk,
        v: &VertexBuf,
    ) -> Result<(), Stop>
        requires ready { IsReady true self.old.part desk.old (D.shown disk.old) }
        requires room { v.now.room ≡ room_of (D.shown disk.old).page_len }
        ensures holds { OnOk result ((l : Graph) → IsHeld self.old desk.old (D.shown disk.old) l → IsHeld self.new desk.new (D.shown disk.new) (put_item v.now.vid v.now.vertex l)) }
        ensures leaves { self.new.leaves ≤ self.old.leaves + 1 }
        ensures reads { (D.shown disk.new).reads ≤ (D.shown disk.old).reads + 128 }
        ensures part { self.new.part ≡ self.old.part }
        ensures desk { SameDesk desk.old desk.new }
        ensures done { OnOk result (IsDone true self.old.part desk.old (D.shown disk.old) desk.new (D.shown disk.new)) }
        ensures err { IfErr result (Broke Stop.Graph AnyFile (D.shown disk.old) (D.shown disk.new)) }
    {
        if self.put_near(disk, desk, v)? {
            return Ok(());
        }
        self.forget_place();
        self.put_anew(disk, desk, v)
    }

    /// Removes a vid, and answers whether it was there.
    pub(crate) fn remove<D: Disk>(
        &mut self,
        disk: &mut D,
        desk: &mut Desk,
        vid: Vid,
    ) -> Result<bool, Stop>
        requires { IsReady true self.old.part desk.old (D.shown disk.old) }
        ensures found { IfOk result (λ b. (l : Graph) → IsHeld self.old desk.old (D.shown disk.old) l → b ≡ is_some (lookup vid l)) }
        ensures holds { OnOk result ((l : Graph) → IsHeld self.old desk.old (D.shown disk.old) l → IsHeld self.new desk.new (D.shown disk.new) (delete_item vid l)) }
        ensures same { self.new ≡ record self.old { mark = self.new.mark } }
        ensures reads { (D.shown disk.new).reads ≤ (D.shown disk.old).reads + 64 }
        ensures desk { SameDesk desk.old desk.new }
        ensures done { OnOk result (IsDone true self.old.part desk.old (D.shown disk.old) desk.new (D.shown disk.new)) }
        ensures err { IfErr result (Broke Stop.Graph AnyFile (D.shown disk.old) (D.shown disk.new)) }
    {
        let spot = self.locate(&mut desk.cache, disk, vid)?;
        Ok(remove_tuple_at(desk.cache.frame_mut(spot.frame), spot.place, vid))
    }
}
