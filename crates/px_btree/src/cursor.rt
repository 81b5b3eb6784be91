// The cursor goes from leaf to leaf.
ghost use Rattle.std.specs.Prelude.{◌≡◌, ◌≤◌, ◌<◌, ◌+◌, ◌-◌, ◌*◌, ◌++◌, [], ◌∷◌, true, length, None, OnOk, IfOk, OnErr, IfErr, IfSome, IfNone, OnSome, IsTrue, IsFalse};
ghost use Rattle.px_core.specs.Shown.{Shown, Broke};
ghost use Rattle.px_pages.specs.Page.{IsPageLen, entry_of, link_of};
ghost use Rattle.px_meaning.specs.Graph.{Graph, room_of};
ghost use Rattle.px_cache.specs.View.{AnyFile};
ghost use Rattle.px_store.specs.Desks.{IsReady, IsDone, GivesNext, SameDesk, SameRoom};
ghost use Rattle.px_btree.specs.Tree.{IsHeld};
ghost use Rattle.px_btree.specs.Scan.{IsScan, Looked, left_here, unread, left, Given};

use crate::leaf::load_at;
use crate::tree::ClosedTree;
use px_core::{Disk, Stop};
use px_pages::{PageReader, Tuple, link};
use px_record::VertexBuf;
use px_store::Desk;

impl ClosedTree {
    ghost use Rattle.px_store.specs.declared.shared.Desk.{Desk};

    // The next tuple of the cursor's leaf.
    #[inline]
    fn take_next(&mut self, page: &[u8]) -> Option<Tuple>
        requires { IsPageLen (length page.now) }
        ensures some { IfSome result (λ t. left_here self.old.here page.now ≡ entry_of t page.now ∷ left_here self.new.here page.now) }
        ensures within { IfSome result (λ t. t.at + t.len ≤ length page.now) }
        ensures none { IfNone result (left_here self.old.here page.now ≡ []) }
        ensures falls { OnSome result (left self.new < left self.old) }
        ensures same { self.new ≡ record self.old { here = self.new.here } }
    {
        let mut reader = match self.here {
            Some(reader) => reader,
            None => PageReader::open(page),
        };
        let found = reader.next(page);
        self.here = Some(reader);
        found
    }

    // Goes on to the next leaf.
    #[cold]
    #[inline(never)]
    fn turn(&mut self, page: &[u8])
        requires page { IsPageLen (length page.now) }
        requires togo { 0 < self.old.togo }
        ensures { self.new ≡ record self.old { here = None; togo = self.old.togo - 1; at = link_of page.now - 1 } }
    {
        self.here = None;
        self.togo -= 1;
        self.at = link(page).saturating_sub(1);
    }

    // Takes the next vertex of the cursor's leaf, or else goes on to the next leaf.
    #[inline]
    fn give(&mut self, page: &[u8], into: &mut VertexBuf) -> bool
        requires page { IsPageLen (length page.now) }
        requires room { into.old.room ≡ room_of (length page.now) }
        requires togo { 0 < self.old.togo }
        ensures given { Given result (length page.now) self.old.here self.new.here page.now into.new.vid into.new.vertex }
        ensures on { IsTrue result → self.new ≡ record self.old { here = self.new.here } }
        ensures over { IsFalse result → self.new ≡ record self.old { here = None; togo = self.old.togo - 1; at = link_of page.now - 1 } }
        ensures falls { left self.new < left self.old }
        ensures into { SameRoom into.old into.new }
    {
        match self.take_next(page) {
            Some(t) => {
                load_at(page, t, t.key, into);
                true
            }
            None => {
                self.turn(page);
                false
            }
        }
    }

    // The page of the cursor's leaf.
    #[inline]
    fn place(&self) -> u64
        ensures { result ≡ self.now.at }
    {
        self.at
    }

    // Loads the cursor's leaf and takes the next vertex of it, or else goes on to the next leaf.
    #[inline]
    fn look<D: Disk>(
        &mut self,
        disk: &mut D,
        desk: &mut Desk,
        into: &mut VertexBuf,
    ) -> Result<bool, Stop>
        requires ready { IsReady true self.old.part desk.old (D.shown disk.old) }
        requires room { into.old.room ≡ room_of (D.shown disk.old).page_len }
        requires togo { 0 < self.old.togo }
        ensures looked { IfOk result (λ given. (a b : Graph) → IsScan self.old desk.old (D.shown disk.old) a b → Looked given into.new.vid into.new.vertex a b (IsScan self.new desk.new (D.shown disk.new))) }
        ensures part { self.new.part ≡ self.old.part }
        ensures leaves { self.new.leaves ≡ self.old.leaves }
        ensures falls { OnOk result (left self.new < left self.old) }
        ensures same_err { OnErr result (self.new ≡ self.old) }
        ensures into { SameRoom into.old into.new }
        ensures reads { (D.shown disk.new).reads + unread self.new desk.new ≤ (D.shown disk.old).reads + unread self.old desk.old }
        ensures desk { SameDesk desk.old desk.new }
        ensures done { OnOk result (IsDone true self.old.part desk.old (D.shown disk.old) desk.new (D.shown disk.new)) }
        ensures err { IfErr result (Broke Stop.Graph AnyFile (D.shown disk.old) (D.shown disk.new)) }
    {
        let file = self.file();
        let at = self.place();
        let i = desk.cache.load(disk, file, at)?;
        Ok(self.give(desk.cache.frame(i), into))
    }

    /// Sets the cursor before the first vertex. It reads nothing.
    pub(crate) fn rewind(&mut self)
        ensures scans { (d : Desk) (s : Shown) (l : Graph) → IsHeld self.old d s l → IsScan self.new d s [] l }
        ensures part { self.new.part ≡ self.old.part }
        ensures leaves { self.new.leaves ≡ self.old.leaves }
        ensures unread { (d : Desk) → unread self.new d ≤ self.old.leaves }
    {
        self.at = 0;
        self.togo = self.leaves;
        self.here = None;
    }

    /// Gives the next vertex, or answers false at the end.
    #[inline]
    pub(crate) fn next<D: Disk>(
        &mut self,
        disk: &mut D,
        desk: &mut Desk,
        into: &mut VertexBuf,
    ) -> Result<bool, Stop>
        requires ready { IsReady true self.old.part desk.old (D.shown disk.old) }
        requires room { into.old.room ≡ room_of (D.shown disk.old).page_len }
        ensures gives { IfOk result (λ given. (a b : Graph) → IsScan self.old desk.old (D.shown disk.old) a b → GivesNext given into.new.vid into.new.vertex a b (IsScan self.new desk.new (D.shown disk.new))) }
        ensures part { self.new.part ≡ self.old.part }
        ensures leaves { self.new.leaves ≡ self.old.leaves }
        ensures left { left self.new ≤ left self.old }
        ensures falls { IfOk result (λ given. IsTrue given → left self.new < left self.old) }
        ensures into { SameRoom into.old into.new }
        ensures reads { (D.shown disk.new).reads + unread self.new desk.new ≤ (D.shown disk.old).reads + unread self.old desk.old }
        ensures desk { SameDesk desk.old desk.new }
        ensures done { OnOk result (IsDone true self.old.part desk.old (D.shown disk.old) desk.new (D.shown disk.new)) }
        ensures err { IfErr result (Broke Stop.Graph AnyFile (D.shown disk.old) (D.shown disk.new)) }
    {
        while self.togo > 0 {
            if self.look(disk, desk, into)? {
                return Ok(true);
            }
        }
        Ok(false)
    }
}
