// A cache over a share of frames.
ghost use Rattle.std.specs.Prelude.{◌≡◌, ◌≢◌, ◌≤◌, ◌<◌, ◌+◌, ◌++◌, [], ◌∷◌, ℕ, List, length, replicate, slice_set, slice_index_or, slice_get, Some, true, false, OnOk, OnErr, IfOk, IfErr, IfSome, IfNone};
ghost use Rattle.px_core.specs.Counts.{bumped_by};
ghost use Rattle.px_core.specs.Shown.{Shown, Worked, StopsAt, Idle};
ghost use Rattle.px_frames.specs.Shares.{ShareView, IsShare, SamePlaces};
ghost use Rattle.px_cache.specs.Note.{notes_of, IsFull};
ghost use Rattle.px_cache.specs.View.{CacheView, written_frame, Holds, IsChanged, IsLeast, IsFree, IsIdle, IsClean, NoPins, HasFree, AlikeIn, IsForgotten, pins, clean, loaded, fresh, SameShown, OthersShown, ShownAfterLoad, ShownAfterNew, SameCache, OnlyCleaned, Brought, AnyFile, ReadsUpTo, Breaks};

use crate::note::{
    Note, after, find, forget_file, is_dirty_note, is_held, least_changed, note_at, pin_one,
    set_note_at, victim,
};
use px_core::{Disk, Failed, Stop};
use px_frames::Share;
use std::marker::Model;

// Where frames are looked for first.
const HINTS: usize = 64;

/// Pages of the files of the graph disk, held in the frames of a share. It shows each file as it was written so far.
#[derive(Drop)]
pub struct Cache {
    share: Share,
    // One more than the number of the frame of the last load.
    hand: u32,
    // The frame of the last load of a page with this hint. It may hold another page by now.
    hints: [u32; HINTS],
}

impl Model for Cache {
    ghost use Rattle.px_cache.specs.View.{CacheView, IsCache, view_of};

    ghost Value = { CacheView };

    ghost view = { λ c. view_of c.share c.hand };

    ghost invariant = { λ c. IsCache c.share c.hand };
}

// The hint of a page.
#[inline]
fn hint_of(file: u32, page: u64) -> usize
    ensures { result < 64 }
{
    (page % 64 + u64::from(file / 8 % 64)) as usize % HINTS
}

impl Cache {
    ghost use Rattle.std.specs.Borrow.{sem};
    ghost use Rattle.px_cache.specs.Cache.{LendsPage};

    /// A cache that holds nothing, over the frames of the share.
    pub fn open(share: Share) -> Cache
        requires some { 4 ≤ length share.frames }
        requires full { IsFull share }
        ensures len { result.len ≡ share.frame_len }
        ensures none { (i f p : ℕ) → Holds result.notes i f p → ⊥ }
        ensures free { NoPins result.notes }
        ensures notes { length result.notes ≡ share.size }
    {
        let mut share = share;
        for i in 0..share.len() {
            empty_one(&mut share, i);
        }
        Cache {
            share,
            hand: 0,
            hints: [0; HINTS],
        }
    }

    /// The share, with its frames.
    pub fn close(self) -> Share
        ensures full { IsFull result }
        ensures size { result.size ≡ length self.notes }
        ensures len { result.frame_len ≡ self.len }
        ensures share { IsShare result }
    {
        self.share
    }

    /// The bytes of a frame.
    #[inline]
    pub fn frame(&self, i: u32) -> &[u8]
        requires { i < length self.now.notes }
        ensures bytes { result.now ≡ slice_index_or self.now.frames i [] }
        ensures len { length result.now ≡ self.now.len }
    {
        self.share.frame(i)
    }

    /// A frame, to be written.
    pub fn frame_mut(&mut self, i: u32) -> &mut [u8]
        requires { i < length self.old.notes }
        ensures* writes_back { sem 𝓛 (LendsPage self.entry i result) }
        ensures value { result.now ≡ slice_index_or self.old.frames i [] }
        ensures len { length result.now ≡ self.old.len }
        ensures whole { length self.old.notes ≡ length self.old.frames }
    {
        let note = note_at(&self.share, i);
        let next = Note {
            changed: true,
            ..note
        };
        set_note_at(&mut self.share, i, next);
        self.share.frame_mut(i)
    }

    /// Copies the bytes of a frame over those of another.
    pub fn copy(&mut self, from: u32, to: u32)
        requires from { from < length self.old.notes }
        requires to { to < length self.old.notes }
        requires apart { from ≢ to }
        ensures copied { self.new ≡ written_frame self.old to (slice_index_or self.old.frames from []) }
        ensures whole { length self.old.notes ≡ length self.old.frames }
        ensures len { length (slice_index_or self.old.frames from []) ≡ self.old.len }
    {
        let note = note_at(&self.share, to);
        let next = Note {
            changed: true,
            ..note
        };
        set_note_at(&mut self.share, to, next);
        self.share.copy(from, to);
    }

    // Writes the changed frame at a place.
    fn clean_one<D: Disk>(&mut self, disk: &mut D, i: u32) -> Result<(), Stop>
        requires at { i < length self.old.notes }
        requires len { self.old.len ≡ (D.shown disk.old).page_len }
        ensures shows { OnOk result ((f p : ℕ) → IsLeast self.old.notes f p i → SameShown self.old (D.shown disk.old) self.new (D.shown disk.new)) }
        ensures cleaned { OnOk result (self.new ≡ record self.old { notes = clean self.old.notes i }) }
        ensures same { OnErr result (self.new ≡ self.old) }
        ensures ok { OnOk result (ReadsUpTo 0 (D.shown disk.old) (D.shown disk.new)) }
        ensures err { IfErr result (Breaks (D.shown disk.old) (D.shown disk.new)) }
    {
        let note = note_at(&self.share, i);
        match disk.write(note.file, note.page, self.share.frame(i)) {
            Ok(()) => {}
            Err(Failed) => return Err(Stop::Graph),
        }
        let next = Note {
            changed: false,
            ..note
        };
        set_note_at(&mut self.share, i, next);
        Ok(())
    }

    // Writes the changed frames of a file, in the order of their pages.
    fn write_back<D: Disk>(&mut self, disk: &mut D, file: u32) -> Result<(), Stop>
        requires { self.old.len ≡ (D.shown disk.old).page_len }
        ensures shows { OnOk result (SameShown self.old (D.shown disk.old) self.new (D.shown disk.new)) }
        ensures written { OnOk result (IsClean self.new.notes file) }
        ensures stays { OnlyCleaned self.old self.new }
        ensures ok { OnOk result (ReadsUpTo 0 (D.shown disk.old) (D.shown disk.new)) }
        ensures err { IfErr result (Breaks (D.shown disk.old) (D.shown disk.new)) }
    {
        loop {
            match self.least(file) {
                Some(i) => self.clean_one(disk, i)?,
                None => return Ok(()),
            }
        }
    }

    // The changed frame of the least page of a file.
    fn least(&self, file: u32) -> Option<u32>
        ensures some { IfSome result (λ i. (p : ℕ) × IsLeast self.now.notes file p i) }
        ensures none { IfNone result (IsClean self.now.notes file) }
        ensures within { IfSome result (λ i. i < length self.now.notes) }
    {
        least_changed(&self.share, file)
    }

    // Finds a frame that is not pinned, whose page was written if it was changed.
    fn free_frame<D: Disk>(&mut self, disk: &mut D) -> Result<u32, Stop>
        requires len { self.old.len ≡ (D.shown disk.old).page_len }
        requires free { HasFree self.old.notes }
        ensures shows { OnOk result (SameShown self.old (D.shown disk.old) self.new (D.shown disk.new)) }
        ensures free { IfOk result (IsFree self.new.notes) }
        ensures other { IfOk result (λ i. self.old.hand ≡ i + 1 → (j : ℕ) → IsFree self.old.notes j → j ≡ i) }
        ensures idle { IfOk result (IsIdle self.new.notes) }
        ensures at { IfOk result (λ i. i < length self.new.notes) }
        ensures stays { OnlyCleaned self.old self.new }
        ensures ok { OnOk result (ReadsUpTo 0 (D.shown disk.old) (D.shown disk.new)) }
        ensures err { IfErr result (Breaks (D.shown disk.old) (D.shown disk.new)) }
    {
        let i = self.choose();
        self.settle(disk, i)?;
        Ok(i)
    }

    // A frame that is not pinned, and if it can be not that of the last load.
    fn choose(&self) -> u32
        requires { HasFree self.now.notes }
        ensures free { IsFree self.now.notes result }
        ensures other { self.now.hand ≡ result + 1 → (j : ℕ) → IsFree self.now.notes j → j ≡ result }
        ensures at { result < length self.now.notes }
    {
        match victim(&self.share, self.hand) {
            Some(i) => i,
            None => unreachable!(),
        }
    }

    // Reads a page into a frame. After an error the frame holds any bytes.
    fn fetch<D: Disk>(&mut self, disk: &mut D, i: u32, file: u32, page: u64) -> Result<(), Stop>
        requires at { i < length self.old.notes }
        requires len { self.old.len ≡ (D.shown disk.old).page_len }
        ensures shows { OnOk result (IsIdle self.old.notes i → ((j : ℕ) → Holds self.old.notes j file page → ⊥) → ShownAfterLoad file page self.old (D.shown disk.old) self.new (D.shown disk.new)) }
        ensures notes { OnOk result (self.new.notes ≡ slice_set self.old.notes i (loaded file page)) }
        ensures hand { OnOk result (self.new.hand ≡ i + 1) }
        ensures same { OnErr result (self.new.notes ≡ self.old.notes) }
        ensures len { self.new.len ≡ self.old.len }
        ensures ok { OnOk result (Worked AnyFile 1 0 (D.shown disk.old) (D.shown disk.new)) }
        ensures err { IfErr result (Breaks (D.shown disk.old) (D.shown disk.new)) }
    {
        match disk.read(file, page, self.share.frame_mut(i)) {
            Ok(()) => {}
            Err(Failed) => return Err(Stop::Graph),
        }
        let next = Note {
            used: true,
            changed: false,
            pinned: false,
            file,
            page,
        };
        set_note_at(&mut self.share, i, next);
        self.hand = after(&self.share, i);
        self.hints[hint_of(file, page)] = i;
        Ok(())
    }

    // The frame that holds a page, which is then that of the last load.
    #[inline]
    fn held(&mut self, file: u32, page: u64) -> Option<u32>
        ensures some { IfSome result (λ i. Holds self.old.notes i file page) }
        ensures none { IfNone result ((i : ℕ) → Holds self.old.notes i file page → ⊥) }
        ensures same { IfNone result (self.new ≡ self.old) }
        ensures hand { IfSome result (λ i. self.new ≡ record self.old { hand = i + 1 }) }
        ensures at { IfSome result (λ i. i < length self.old.notes) }
    {
        let found = self.seek(file, page);
        match found {
            Some(i) => {
                self.hand = after(&self.share, i);
                self.hints[hint_of(file, page)] = i;
                Some(i)
            }
            None => None,
        }
    }

    /// The frame that holds a page, if one does. The one of its hint is asked first, and nothing is read.
    #[inline]
    pub fn seek(&self, file: u32, page: u64) -> Option<u32>
        ensures some { IfSome result (λ i. Holds self.now.notes i file page) }
        ensures none { IfNone result ((i : ℕ) → Holds self.now.notes i file page → ⊥) }
        ensures at { IfSome result (λ i. i < length self.now.notes) }
    {
        let i = self.hints[hint_of(file, page)];
        if is_held(&self.share, i, file, page) {
            return Some(i);
        }
        find(&self.share, file, page)
    }

    /// Holds a page, and answers the number of its frame. A held page is not read again, and no other page goes for it.
    /// Else one page that is not pinned goes; where two frames are not pinned, it is not that of the call before.
    #[inline]
    pub fn load<D: Disk>(&mut self, disk: &mut D, file: u32, page: u64) -> Result<u32, Stop>
        requires len { self.old.len ≡ (D.shown disk.old).page_len }
        requires free { HasFree self.old.notes }
        ensures shows { OnOk result (ShownAfterLoad file page self.old (D.shown disk.old) self.new (D.shown disk.new)) }
        ensures brought { IfOk result (λ i. Brought file page i self.old self.new) }
        ensures held { (i : ℕ) → Holds self.old.notes i file page → OnOk result (self.new.notes ≡ self.old.notes) }
        ensures idle { (i : ℕ) → Holds self.old.notes i file page → Idle result (D.shown disk.old) (D.shown disk.new) }
        ensures read { ((i : ℕ) → Holds self.old.notes i file page → ⊥) → OnOk result ((D.shown disk.new).reads ≡ bumped_by 1 (D.shown disk.old).reads) }
        ensures stays { SameCache self.old self.new }
        ensures ok { OnOk result (ReadsUpTo 1 (D.shown disk.old) (D.shown disk.new)) }
        ensures err { IfErr result (Breaks (D.shown disk.old) (D.shown disk.new)) }
    {
        match self.held(file, page) {
            Some(i) => Ok(i),
            None => self.bring(disk, file, page),
        }
    }

    // Holds a page that no frame holds.
    #[cold]
    #[inline(never)]
    fn bring<D: Disk>(&mut self, disk: &mut D, file: u32, page: u64) -> Result<u32, Stop>
        requires len { self.old.len ≡ (D.shown disk.old).page_len }
        requires free { HasFree self.old.notes }
        requires nowhere { (i : ℕ) → Holds self.old.notes i file page → ⊥ }
        ensures shows { OnOk result (ShownAfterLoad file page self.old (D.shown disk.old) self.new (D.shown disk.new)) }
        ensures brought { IfOk result (λ i. Brought file page i self.old self.new) }
        ensures read { OnOk result ((D.shown disk.new).reads ≡ bumped_by 1 (D.shown disk.old).reads) }
        ensures stays { SameCache self.old self.new }
        ensures ok { OnOk result (ReadsUpTo 1 (D.shown disk.old) (D.shown disk.new)) }
        ensures err { IfErr result (Breaks (D.shown disk.old) (D.shown disk.new)) }
    {
        let i = self.free_frame(disk)?;
        self.fetch(disk, i, file, page)?;
        Ok(i)
    }

    /// Holds a new page at the end of its file, all zero. A page goes for it as for a load.
    pub fn new_page<D: Disk>(&mut self, disk: &mut D, file: u32, page: u64) -> Result<u32, Stop>
        requires len { self.old.len ≡ (D.shown disk.old).page_len }
        requires free { HasFree self.old.notes }
        ensures shows { OnOk result (ShownAfterNew file page self.old (D.shown disk.old) self.new (D.shown disk.new)) }
        ensures brought { IfOk result (λ i. Brought file page i self.old self.new) }
        ensures stays { SameCache self.old self.new }
        ensures ok { OnOk result (ReadsUpTo 0 (D.shown disk.old) (D.shown disk.new)) }
        ensures err { IfErr result (Breaks (D.shown disk.old) (D.shown disk.new)) }
    {
        let i = self.free_frame(disk)?;
        self.begin(i, file, page);
        Ok(i)
    }

    // Makes a frame a new page.
    fn begin(&mut self, i: u32, file: u32, page: u64)
        requires { i < length self.old.notes }
        ensures shows { (s : Shown) → IsIdle self.old.notes i → ShownAfterNew file page self.old s self.new s }
        ensures notes { self.new.notes ≡ slice_set self.old.notes i (fresh file page) }
        ensures len { self.new.len ≡ self.old.len }
        ensures hand { self.new.hand ≡ i + 1 }
    {
        self.share.frame_mut(i).fill(0);
        let next = Note {
            used: true,
            changed: true,
            pinned: false,
            file,
            page,
        };
        set_note_at(&mut self.share, i, next);
        self.hand = after(&self.share, i);
        self.hints[hint_of(file, page)] = i;
    }

    /// Writes every changed frame.
    pub fn flush<D: Disk>(&mut self, disk: &mut D) -> Result<(), Stop>
        requires { self.old.len ≡ (D.shown disk.old).page_len }
        ensures shows { OnOk result (SameShown self.old (D.shown disk.old) self.new (D.shown disk.new)) }
        ensures flushed { OnOk result ((f : ℕ) → IsClean self.new.notes f) }
        ensures stays { OnlyCleaned self.old self.new }
        ensures ok { OnOk result (ReadsUpTo 0 (D.shown disk.old) (D.shown disk.new)) }
        ensures err { IfErr result (Breaks (D.shown disk.old) (D.shown disk.new)) }
    {
        for i in 0..self.count() {
            self.settle(disk, i)?;
        }
        Ok(())
    }

    // The number of frames.
    fn count(&self) -> u32
        ensures { result ≡ length self.now.notes }
    {
        self.share.len()
    }

    // Writes a frame if it is changed, with the changed frames of its file.
    fn settle<D: Disk>(&mut self, disk: &mut D, i: u32) -> Result<(), Stop>
        requires at { i < length self.old.notes }
        requires len { self.old.len ≡ (D.shown disk.old).page_len }
        ensures shows { OnOk result (SameShown self.old (D.shown disk.old) self.new (D.shown disk.new)) }
        ensures idle { OnOk result (IsIdle self.new.notes i) }
        ensures stays { OnlyCleaned self.old self.new }
        ensures ok { OnOk result (ReadsUpTo 0 (D.shown disk.old) (D.shown disk.new)) }
        ensures err { IfErr result (Breaks (D.shown disk.old) (D.shown disk.new)) }
    {
        let note = self.note(i);
        if is_dirty_note(note, note.file) {
            self.write_back(disk, note.file)?;
            return Ok(());
        }
        Ok(())
    }

    // What is known of a frame.
    fn note(&self, i: u32) -> Note
        requires { i < length self.now.notes }
        ensures { slice_get self.now.notes i ≡ Some result }
    {
        note_at(&self.share, i)
    }

    /// Holds no page of a file any more. Nothing is written.
    pub fn forget(&mut self, file: u32)
        ensures others { (s : Shown) → OthersShown file self.old s self.new s }
        ensures notes { IsForgotten file self.old.notes self.new.notes }
        ensures frames { self.new.frames ≡ self.old.frames }
        ensures len { self.new.len ≡ self.old.len }
        ensures hand { self.new.hand ≡ self.old.hand }
    {
        forget_file(&mut self.share, file);
    }

    /// Keeps a frame from being given another page.
    pub fn pin(&mut self, i: u32)
        requires { i < length self.old.notes }
        ensures shows { (s : Shown) → SameShown self.old s self.new s }
        ensures alike { (f : ℕ) → AlikeIn f self.old.notes self.new.notes }
        ensures pins { pins self.new.notes ≡ slice_set (pins self.old.notes) i true }
        ensures len { self.new.len ≡ self.old.len }
        ensures hand { self.new.hand ≡ self.old.hand }
    {
        pin_one(&mut self.share, i, true);
    }

    /// Lets a pinned frame go.
    pub fn unpin(&mut self, i: u32)
        requires { i < length self.old.notes }
        ensures shows { (s : Shown) → SameShown self.old s self.new s }
        ensures alike { (f : ℕ) → AlikeIn f self.old.notes self.new.notes }
        ensures pins { pins self.new.notes ≡ slice_set (pins self.old.notes) i false }
        ensures len { self.new.len ≡ self.old.len }
        ensures hand { self.new.hand ≡ self.old.hand }
    {
        pin_one(&mut self.share, i, false);
    }
}

// Says of a frame that it holds nothing.
fn empty_one(share: &mut Share, i: u32)
    requires { i < length share.old.frames }
    ensures notes { notes_of share.new ≡ slice_set (notes_of share.old) i (record { used = false; changed = false; pinned = false; file = 0; page = 0 }) }
    ensures frames { share.new.frames ≡ share.old.frames }
    ensures stays { SamePlaces share.old share.new }
    ensures share { IsShare share.new }
{
    let none = Note {
        used: false,
        changed: false,
        pinned: false,
        file: 0,
        page: 0,
    };
    set_note_at(share, i, none);
}
