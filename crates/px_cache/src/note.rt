// What a cache knows of a frame. It stands in the note of the frame's place in the share, as two numbers.
ghost use Rattle.std.specs.Prelude.{◌≡◌, ◌≤◌, ◌<◌, ◌+◌, ◌↔◌, ℕ, IsTrue, length, slice_set, slice_get, Some, IfSome, IfNone};
ghost use Rattle.px_frames.specs.Shares.{ShareView, SamePlaces, IsShare};
ghost use Rattle.px_cache.specs.Note.{unpacked, notes_of, IsFull};
ghost use Rattle.px_cache.specs.View.{Holds, SaysPage, IsChanged, IsLeast, IsFree, IsClean, IsForgotten, AlikeIn, pins, is_dirty};

use px_frames::Share;

/// The page that a frame holds, if it is used.
#[derive(Clone, Copy, Debug, PartialEq, Eq)]
pub struct Note {
    pub used: bool,
    pub changed: bool,
    pub pinned: bool,
    pub file: u32,
    pub page: u64,
}

// The number of the page, and the number of the file with a bit for each of the three words above it.
fn pack(note: Note) -> (u64, u64)
    ensures { unpacked result ≡ note }
{
    let mut word = u64::from(note.file);
    if note.used {
        word += 1 << 32;
    }
    if note.changed {
        word += 1 << 33;
    }
    if note.pinned {
        word += 1 << 34;
    }
    (note.page, word)
}

#[inline]
fn unpack(pair: (u64, u64)) -> Note
    ensures { result ≡ unpacked pair }
{
    Note {
        used: pair.1 / (1 << 32) % 2 == 1,
        changed: pair.1 / (1 << 33) % 2 == 1,
        pinned: pair.1 / (1 << 34) % 2 == 1,
        file: (pair.1 % (1 << 32)) as u32,
        page: pair.0,
    }
}

/// What is known of the frame at a place.
#[inline]
pub(crate) fn note_at(share: &Share, i: u32) -> Note
    requires at { i < length share.now.frames }
    requires full { IsFull share.now }
    ensures note { slice_get (notes_of share.now) i ≡ Some result }
    ensures share { IsShare share.now }
{
    // That a note stands at each place is known from the size.
    let _size = share.size();
    unpack(share.note(i))
}

/// Says it of the frame at a place.
pub(crate) fn set_note_at(share: &mut Share, i: u32, note: Note)
    requires { i < length share.old.frames }
    ensures notes { notes_of share.new ≡ slice_set (notes_of share.old) i note }
    ensures frames { share.new.frames ≡ share.old.frames }
    ensures stays { SamePlaces share.old share.new }
    ensures share { IsShare share.new }
{
    let pair = pack(note);
    share.set_note(i, pair.0, pair.1);
}

/// One more than the number of a frame.
#[inline]
pub(crate) fn after(share: &Share, i: u32) -> u32
    requires { i < length share.now.frames }
    ensures { result ≡ i + 1 }
{
    // The number of frames is read so that its range is known.
    let _len = share.len();
    i + 1
}

/// Whether the note says that its frame holds this page.
#[inline]
pub(crate) fn is_page(note: Note, file: u32, page: u64) -> bool
    ensures { IsTrue result ↔ SaysPage (Some note) file page }
{
    note.used && note.file == file && note.page == page
}

/// Whether there is a frame of this number, and it holds the page.
#[inline]
pub(crate) fn is_held(share: &Share, i: u32, file: u32, page: u64) -> bool
    requires { IsFull share.now }
    ensures at { IsTrue result → i < length share.now.frames }
    ensures held { IsTrue result → Holds (notes_of share.now) i file page }
{
    i < share.len() && is_page(note_at(share, i), file, page)
}

/// The frame that holds a page.
#[cold]
#[inline(never)]
pub(crate) fn find(share: &Share, file: u32, page: u64) -> Option<u32>
    requires { IsFull share.now }
    ensures some { IfSome result (λ i. Holds (notes_of share.now) i file page) }
    ensures none { IfNone result ((i : ℕ) → Holds (notes_of share.now) i file page → ⊥) }
    ensures at { IfSome result (λ i. i < length share.now.frames) }
{
    for i in 0..share.len() {
        if is_page(note_at(share, i), file, page) {
            return Some(i);
        }
    }
    None
}

/// Whether this is a changed frame of the file.
pub(crate) fn is_dirty_note(note: Note, file: u32) -> bool
    ensures { result ≡ is_dirty note file }
{
    note.used && note.changed && note.file == file
}

/// The changed frame of the least page of a file.
pub(crate) fn least_changed(share: &Share, file: u32) -> Option<u32>
    requires { IsFull share.now }
    ensures some { IfSome result (λ i. (p : ℕ) × IsLeast (notes_of share.now) file p i) }
    ensures none { IfNone result (IsClean (notes_of share.now) file) }
{
    let mut found = None;
    let mut best = 0;
    for i in 0..share.len() {
        let note = note_at(share, i);
        if is_dirty_note(note, file) && (found.is_none() || note.page < best) {
            found = Some(i);
            best = note.page;
        }
    }
    found
}

/// A frame that is not pinned: the first from the hand on, else the first of all.
pub(crate) fn victim(share: &Share, hand: u32) -> Option<u32>
    requires { IsFull share.now }
    ensures some { IfSome result (IsFree (notes_of share.now)) }
    ensures none { IfNone result ((i : ℕ) → IsFree (notes_of share.now) i → ⊥) }
    ensures other { IfSome result (λ i. hand ≡ i + 1 → (j : ℕ) → IsFree (notes_of share.now) j → j ≡ i) }
{
    for i in hand..share.len() {
        if !note_at(share, i).pinned {
            return Some(i);
        }
    }
    for i in 0..share.len() {
        if !note_at(share, i).pinned {
            return Some(i);
        }
    }
    None
}

/// Says of each frame of a file that it is not used.
pub(crate) fn forget_file(share: &mut Share, file: u32)
    requires { IsFull share.old }
    ensures forgotten { IsForgotten file (notes_of share.old) (notes_of share.new) }
    ensures frames { share.new.frames ≡ share.old.frames }
    ensures stays { SamePlaces share.old share.new }
    ensures share { IsShare share.new }
{
    for i in 0..share.len() {
        forget_one(share, i, file);
    }
}

// Says of a frame that it is not used, if it holds a page of the file.
fn forget_one(share: &mut Share, i: u32, file: u32)
    requires at { i < length share.old.frames }
    requires full { IsFull share.old }
    ensures gone { (p : ℕ) → Holds (notes_of share.new) i file p → ⊥ }
    ensures kept { (k p : ℕ) → (Holds (notes_of share.old) k file p → ⊥) → Holds (notes_of share.new) k file p → ⊥ }
    ensures let_go { (p : ℕ) → Holds (notes_of share.old) i file p → IsFree (notes_of share.new) i }
    ensures ahead { (k p : ℕ) → (k ≡ i → ⊥) → Holds (notes_of share.old) k file p → Holds (notes_of share.new) k file p }
    ensures others { (f : ℕ) → (f ≡ file → ⊥) → AlikeIn f (notes_of share.old) (notes_of share.new) }
    ensures pinned { (k f p : ℕ) → (f ≡ file → ⊥) → Holds (notes_of share.old) k f p → IsFree (notes_of share.new) k → IsFree (notes_of share.old) k }
    ensures free { (k : ℕ) → IsFree (notes_of share.old) k → IsFree (notes_of share.new) k }
    ensures frames { share.new.frames ≡ share.old.frames }
    ensures stays { SamePlaces share.old share.new }
    ensures share { IsShare share.new }
{
    let note = note_at(share, i);
    if note.file == file {
        let gone = Note {
            used: false,
            pinned: false,
            changed: note.changed,
            file: note.file,
            page: note.page,
        };
        set_note_at(share, i, gone);
    }
}

/// Pins a frame, or no more.
pub(crate) fn pin_one(share: &mut Share, i: u32, pinned: bool)
    requires at { i < length share.old.frames }
    requires full { IsFull share.old }
    ensures alike { (f : ℕ) → AlikeIn f (notes_of share.old) (notes_of share.new) }
    ensures pins { pins (notes_of share.new) ≡ slice_set (pins (notes_of share.old)) i pinned }
    ensures frames { share.new.frames ≡ share.old.frames }
    ensures stays { SamePlaces share.old share.new }
    ensures share { IsShare share.new }
{
    let note = note_at(share, i);
    let next = Note { pinned, ..note };
    set_note_at(share, i, next);
}
