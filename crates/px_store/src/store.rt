// A map of vertices with a cursor, on the pages of one partition.
ghost use Rattle.std.specs.Prelude.{◌≡◌, ◌≤◌, ◌<◌, ◌+◌, ◌++◌, [], ◌∷◌, ℕ, Bool, true, is_some, None, OnOk, IfOk, IfErr, IsTrue, IsFalse};
ghost use Rattle.std.specs.Bool.{OnTrue};
ghost use Rattle.px_core.specs.Shown.{Shown, Broke};
ghost use Rattle.px_meaning.specs.Graph.{Graph, IsMap, fresh, lookup, vertex_or_fresh, put as put_item, delete as delete_item, room_of};
ghost use Rattle.px_record.specs.Held.{HeldVertex};
ghost use Rattle.px_cache.specs.View.{AnyFile};
ghost use Rattle.px_store.specs.Desks.{IsReady, IsDone, SameDesk, SameRoom, OwnKept, IsNotOwner, GivesNext, AllBelow};

use crate::shared::Desk;
use px_core::{Disk, Stop, Vid};
use px_record::VertexBuf;

/// A map from vids to vertices on a desk that it shares with the stores of other partitions, and a cursor.
/// The only error is `Stop::Graph`, where the disk failed. After it the sizes of the desk's parts are as before, and nothing else is said of the store and of the desk.
/// What is said of reads holds where `counted` is true, over every disk and whatever a call answers.
pub trait Store: Drop {
    ghost use Rattle.px_store.specs.declared.shared.Desk.{Desk};

    /// Its partition.
    ghost part: { Self → ℕ };

    /// Whether its reads are bounded.
    ghost counted: { Bool };

    /// How many leaves it has.
    ghost leaves: { Self → ℕ };

    /// How many pages may still be read for the vertices put since `start`, beside two for each that is still to come.
    ghost saved: { Self → ℕ };

    /// How many pages the calls of `next` may still read, where no other call on the desk comes between.
    ghost unread: { Self → Desk → ℕ };

    /// How many vertices the cursor may still give, over any disk.
    ghost left: { Self → ℕ };

    /// It holds these vertices.
    ghost holds: { Self → Desk → Shown → Graph → Type 0 };

    /// It gave the first vertices since it was rewound, and will give the second.
    ghost scans: { Self → Desk → Shown → Graph → Graph → Type 0 };

    /// It was started, and took these vertices in bulk.
    ghost fills: { Self → Desk → Shown → Graph → Type 0 };

    fn open(partition: u32) -> Self
        requires { partition < 16 }
        ensures { part result ≡ partition };

    /// Makes it empty, to be filled.
    fn start<D: Disk>(&mut self, disk: &mut D, desk: &mut Desk) -> Result<(), Stop>
        requires { IsReady counted (part self.old) desk.old (D.shown disk.old) }
        ensures fills { OnOk result (OnTrue (D.shown disk.new).tells (fills self.new desk.new (D.shown disk.new) [])) }
        ensures leaves { OnTrue counted (leaves self.new ≤ 1) }
        ensures reads { OnTrue counted ((D.shown disk.new).reads + saved self.new ≤ (D.shown disk.old).reads) }
        ensures part { part self.new ≡ part self.old }
        ensures desk { SameDesk desk.old desk.new }
        ensures done { OnOk result (IsDone counted (part self.old) desk.old (D.shown disk.old) desk.new (D.shown disk.new)) }
        ensures err { IfErr result (Broke Stop.Graph AnyFile (D.shown disk.old) (D.shown disk.new)) };

    /// Takes a vertex above all before.
    fn bulk_put<D: Disk>(
        &mut self,
        disk: &mut D,
        desk: &mut Desk,
        v: &VertexBuf,
    ) -> Result<(), Stop>
        requires ready { IsReady counted (part self.old) desk.old (D.shown disk.old) }
        requires room { v.now.room ≡ room_of (D.shown disk.old).page_len }
        ensures fills { OnOk result ((l : Graph) → AllBelow v.now.vid l → fills self.old desk.old (D.shown disk.old) l → fills self.new desk.new (D.shown disk.new) (l ++ (v.now.vid, v.now.vertex) ∷ [])) }
        ensures leaves { OnTrue counted (leaves self.new ≤ leaves self.old + 1) }
        ensures reads { OnTrue counted ((D.shown disk.new).reads + saved self.new ≤ (D.shown disk.old).reads + saved self.old + 2) }
        ensures part { part self.new ≡ part self.old }
        ensures desk { SameDesk desk.old desk.new }
        ensures done { OnOk result (IsDone counted (part self.old) desk.old (D.shown disk.old) desk.new (D.shown disk.new)) }
        ensures err { IfErr result (Broke Stop.Graph AnyFile (D.shown disk.old) (D.shown disk.new)) };

    /// Ends the filling.
    fn bulk_end<D: Disk>(&mut self, disk: &mut D, desk: &mut Desk) -> Result<(), Stop>
        requires { IsReady counted (part self.old) desk.old (D.shown disk.old) }
        ensures holds { OnOk result ((l : Graph) → fills self.old desk.old (D.shown disk.old) l → holds self.new desk.new (D.shown disk.new) l) }
        ensures leaves { OnTrue counted (leaves self.new ≤ leaves self.old) }
        ensures reads { OnTrue counted ((D.shown disk.new).reads ≤ (D.shown disk.old).reads + saved self.old) }
        ensures part { part self.new ≡ part self.old }
        ensures desk { SameDesk desk.old desk.new }
        ensures done { OnOk result (IsDone counted (part self.old) desk.old (D.shown disk.old) desk.new (D.shown disk.new)) }
        ensures err { IfErr result (Broke Stop.Graph AnyFile (D.shown disk.old) (D.shown disk.new)) };

    /// Gives the vertex of a vid, or the fresh one where it is not there.
    fn get<D: Disk>(
        &mut self,
        disk: &mut D,
        desk: &mut Desk,
        vid: Vid,
        into: &mut VertexBuf,
    ) -> Result<bool, Stop>
        requires ready { IsReady counted (part self.old) desk.old (D.shown disk.old) }
        requires room { into.old.room ≡ room_of (D.shown disk.old).page_len }
        ensures found { IfOk result (λ b. (l : Graph) → holds self.old desk.old (D.shown disk.old) l → (b ≡ is_some (lookup vid l)) × (into.new.vertex ≡ vertex_or_fresh (lookup vid l))) }
        ensures vid { OnOk result (into.new.vid ≡ vid) }
        ensures fresh { IfOk result (λ b. IsFalse b → into.new.vertex ≡ fresh) }
        ensures into { SameRoom into.old into.new }
        ensures holds { OnOk result ((l : Graph) → holds self.old desk.old (D.shown disk.old) l → holds self.new desk.new (D.shown disk.new) l) }
        ensures scans { OnOk result ((a b : Graph) → scans self.old desk.old (D.shown disk.old) a b → scans self.new desk.new (D.shown disk.new) a b) }
        ensures left { left self.new ≤ left self.old }
        ensures leaves { OnTrue counted (leaves self.new ≡ leaves self.old) }
        ensures reads { OnTrue counted ((D.shown disk.new).reads ≤ (D.shown disk.old).reads + 64) }
        ensures part { part self.new ≡ part self.old }
        ensures desk { SameDesk desk.old desk.new }
        ensures done { OnOk result (IsDone counted (part self.old) desk.old (D.shown disk.old) desk.new (D.shown disk.new)) }
        ensures err { IfErr result (Broke Stop.Graph AnyFile (D.shown disk.old) (D.shown disk.new)) };

    /// Inserts or replaces a vertex.
    fn put<D: Disk>(&mut self, disk: &mut D, desk: &mut Desk, v: &VertexBuf) -> Result<(), Stop>
        requires ready { IsReady counted (part self.old) desk.old (D.shown disk.old) }
        requires room { v.now.room ≡ room_of (D.shown disk.old).page_len }
        ensures holds { OnOk result ((l : Graph) → holds self.old desk.old (D.shown disk.old) l → holds self.new desk.new (D.shown disk.new) (put_item v.now.vid v.now.vertex l)) }
        ensures leaves { OnTrue counted (leaves self.new ≤ leaves self.old + 1) }
        ensures reads { OnTrue counted ((D.shown disk.new).reads ≤ (D.shown disk.old).reads + 128) }
        ensures part { part self.new ≡ part self.old }
        ensures desk { SameDesk desk.old desk.new }
        ensures done { OnOk result (IsDone counted (part self.old) desk.old (D.shown disk.old) desk.new (D.shown disk.new)) }
        ensures err { IfErr result (Broke Stop.Graph AnyFile (D.shown disk.old) (D.shown disk.new)) };

    /// Removes a vid, and answers whether it was there.
    fn remove<D: Disk>(&mut self, disk: &mut D, desk: &mut Desk, vid: Vid) -> Result<bool, Stop>
        requires { IsReady counted (part self.old) desk.old (D.shown disk.old) }
        ensures found { IfOk result (λ b. (l : Graph) → holds self.old desk.old (D.shown disk.old) l → b ≡ is_some (lookup vid l)) }
        ensures holds { OnOk result ((l : Graph) → holds self.old desk.old (D.shown disk.old) l → holds self.new desk.new (D.shown disk.new) (delete_item vid l)) }
        ensures leaves { OnTrue counted (leaves self.new ≡ leaves self.old) }
        ensures reads { OnTrue counted ((D.shown disk.new).reads ≤ (D.shown disk.old).reads + 64) }
        ensures part { part self.new ≡ part self.old }
        ensures desk { SameDesk desk.old desk.new }
        ensures done { OnOk result (IsDone counted (part self.old) desk.old (D.shown disk.old) desk.new (D.shown disk.new)) }
        ensures err { IfErr result (Broke Stop.Graph AnyFile (D.shown disk.old) (D.shown disk.new)) };

    /// Leaves the desk to other partitions.
    fn settle<D: Disk>(&mut self, disk: &mut D, desk: &mut Desk) -> Result<(), Stop>
        requires { IsReady counted (part self.old) desk.old (D.shown disk.old) }
        ensures owner { OnOk result (desk.new.owner ≡ None) }
        ensures holds { OnOk result ((l : Graph) → holds self.old desk.old (D.shown disk.old) l → holds self.new desk.new (D.shown disk.new) l) }
        ensures scans { OnOk result ((a b : Graph) → scans self.old desk.old (D.shown disk.old) a b → scans self.new desk.new (D.shown disk.new) a b) }
        ensures left { left self.new ≤ left self.old }
        ensures leaves { OnTrue counted (leaves self.new ≡ leaves self.old) }
        ensures reads { OnTrue counted ((D.shown disk.new).reads ≡ (D.shown disk.old).reads) }
        ensures unread { OnTrue counted (unread self.new desk.new ≤ unread self.old desk.old) }
        ensures part { part self.new ≡ part self.old }
        ensures desk { SameDesk desk.old desk.new }
        ensures done { OnOk result (IsDone counted (part self.old) desk.old (D.shown disk.old) desk.new (D.shown disk.new)) }
        ensures err { IfErr result (Broke Stop.Graph AnyFile (D.shown disk.old) (D.shown disk.new)) };

    /// Sets the cursor before the first vertex.
    fn rewind<D: Disk>(&mut self, disk: &mut D, desk: &mut Desk) -> Result<(), Stop>
        requires { IsReady counted (part self.old) desk.old (D.shown disk.old) }
        ensures scans { OnOk result ((l : Graph) → holds self.old desk.old (D.shown disk.old) l → scans self.new desk.new (D.shown disk.new) [] l) }
        ensures leaves { OnTrue counted (leaves self.new ≡ leaves self.old) }
        ensures reads { OnTrue counted ((D.shown disk.new).reads + unread self.new desk.new ≤ (D.shown disk.old).reads + 64 + leaves self.old) }
        ensures part { part self.new ≡ part self.old }
        ensures desk { SameDesk desk.old desk.new }
        ensures done { OnOk result (IsDone counted (part self.old) desk.old (D.shown disk.old) desk.new (D.shown disk.new)) }
        ensures err { IfErr result (Broke Stop.Graph AnyFile (D.shown disk.old) (D.shown disk.new)) };

    /// Gives the next vertex, or answers false at the end.
    fn next<D: Disk>(
        &mut self,
        disk: &mut D,
        desk: &mut Desk,
        into: &mut VertexBuf,
    ) -> Result<bool, Stop>
        requires ready { IsReady counted (part self.old) desk.old (D.shown disk.old) }
        requires room { into.old.room ≡ room_of (D.shown disk.old).page_len }
        ensures gives { IfOk result (λ given. (a b : Graph) → scans self.old desk.old (D.shown disk.old) a b → GivesNext given into.new.vid into.new.vertex a b (scans self.new desk.new (D.shown disk.new))) }
        ensures left { left self.new ≤ left self.old }
        ensures falls { IfOk result (λ given. IsTrue given → left self.new < left self.old) }
        ensures into { SameRoom into.old into.new }
        ensures leaves { OnTrue counted (leaves self.new ≡ leaves self.old) }
        ensures reads { OnTrue counted ((D.shown disk.new).reads + unread self.new desk.new ≤ (D.shown disk.old).reads + unread self.old desk.old) }
        ensures part { part self.new ≡ part self.old }
        ensures desk { SameDesk desk.old desk.new }
        ensures done { OnOk result (IsDone counted (part self.old) desk.old (D.shown disk.old) desk.new (D.shown disk.new)) }
        ensures err { IfErr result (Broke Stop.Graph AnyFile (D.shown disk.old) (D.shown disk.new)) };

    /// The number of levels of pages.
    fn depth(&self) -> u32
        ensures { result ≤ 64 };

    /// What it holds depends only on what is shown of its partition's own files, while it does not own the desk.
    ghost stays: { (st : Self) (d d' : Desk) (s s' : Shown) (l : Graph) → OwnKept (part st) d s d' s' → s'.page_len ≡ s.page_len → IsNotOwner (part st) d.owner → IsNotOwner (part st) d'.owner → holds st d s l → holds st d' s' l };

    /// So does its place.
    ghost scan_stays: { (st : Self) (d d' : Desk) (s s' : Shown) (a b : Graph) → OwnKept (part st) d s d' s' → s'.page_len ≡ s.page_len → IsNotOwner (part st) d.owner → IsNotOwner (part st) d'.owner → scans st d s a b → scans st d' s' a b };

    /// What it gave and will give is what it holds.
    ghost scan_holds: { (st : Self) (d : Desk) (s : Shown) (a b : Graph) → scans st d s a b → holds st d s (a ++ b) };

    /// What it holds is a map.
    ghost is_map: { (st : Self) (d : Desk) (s : Shown) (l : Graph) → holds st d s l → IsMap l };
}
