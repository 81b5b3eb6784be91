// A file of tuples is written.
ghost use Rattle.std.specs.Prelude.{◌≡◌, ◌≤◌, ◌+◌, ◌++◌, ◌↔◌, [], ◌∷◌, ℕ, List, length, true, IsTrue, IsOk, OnOk, OnErr, IfErr};
ghost use Rattle.std.specs.Option.{option_map};
ghost use Rattle.px_core.specs.Shown.{Shown, Only, Worked, StopsAt, Idle, HasRoom, written, Tells, TellsPages};
ghost use Rattle.px_core.specs.Same.{SameBelow};
ghost use Rattle.px_pages.specs.Entry.{Entry, entry};
ghost use Rattle.px_meaning.specs.Graph.{room_of};
ghost use Rattle.px_pages.specs.Page.{IsPageLen, used_of, tuples_of};
ghost use Rattle.px_stream.specs.Views.{IsPage};
ghost use Rattle.px_stream.specs.Stream.{Took, Has, tuple, lone_page};
ghost use Rattle.px_stream.specs.Counts.{Fits, SameWriter, Wrote, pages_before, here_after, pages_of};

use crate::Head;
use crate::paging::{clear_file, single_page, start_page, write_page};
use px_core::{Disk, Stop, Vid};
use px_frames::Frame;
use px_pages::{PageReader, PageWriter};
use std::marker::Model;

/// Puts tuples into a file, page by page. The tuples of the last page stay in its frame until that page is full or `finish` is called.
/// The only error is `Stop::Scratch`, where the disk failed; after it nothing is said of the file until the next `start`. Several lists may stand in one file, one behind the other.
#[derive(Drop)]
pub struct Writer {
    frame: Frame,
    file: u32,
    first: u64,
    pages: u64,
    page: PageWriter,
}

impl Model for Writer {
    ghost use Rattle.std.specs.Prelude.{◌≤◌, length};
    ghost use Rattle.px_pages.specs.Page.{tuples_of};
    ghost use Rattle.px_stream.specs.Views.{WriterView, IsPage};

    ghost Value = { WriterView };

    ghost view = { λ w. record {
      file = w.file;
      first = w.first;
      pages = w.pages;
      page_len = length w.frame;
      here = tuples_of w.frame;
    } };

    ghost invariant = { λ w. IsPage w.page w.frame × (w.first ≤ w.pages) };
}

impl Writer {
    /// A writer of this file, to be started. Pages are as long as the frame.
    pub fn new(frame: Frame, file: u32) -> Writer
        requires { IsPageLen (length frame) }
        ensures file { result.file ≡ file }
        ensures page_len { result.page_len ≡ length frame }
        ensures first { result.first ≡ 0 }
        ensures pages { result.pages ≡ 0 }
        ensures here { result.here ≡ [] }
    {
        let mut frame = frame;
        let page = start_page(&mut frame);
        Writer {
            frame,
            file,
            first: 0,
            pages: 0,
            page,
        }
    }

    /// Clears the file and begins with an empty list.
    pub fn start<D: Disk>(&mut self, disk: &mut D) -> Result<(), Stop>
        requires { self.old.page_len ≡ (D.shown disk.old).page_len }
        ensures took { OnOk result ((D.shown disk.old).tells ≡ true → Took (D.shown disk.new) self.new []) }
        ensures after { OnOk result (self.new ≡ record self.old { first = 0; pages = 0; here = [] }) }
        ensures ok { OnOk result (Worked (Only self.old.file) 0 0 (D.shown disk.old) (D.shown disk.new)) }
        ensures err { IfErr result (StopsAt Stop.Scratch (Only self.old.file) 0 0 (D.shown disk.old) (D.shown disk.new)) }
        ensures same_err { OnErr result (self.new ≡ self.old) }
        ensures stays { SameWriter self.old self.new }
    {
        clear_file(disk, self.file)?;
        self.begin_at(0);
        Ok(())
    }

    /// Begins with an empty list behind so many pages, which are all that stand in the file, and which stay. Tuples that were taken and not written yet are left out.
    pub fn begin_at(&mut self, pages: u64)
        ensures took { (s : Shown) → TellsPages s self.old.file pages → Took s self.new [] }
        ensures after { self.new ≡ record self.old { first = pages; pages = pages; here = [] } }
        ensures stays { SameWriter self.old self.new }
    {
        self.begin(pages, pages);
    }

    /// Turns to another file, which is to be started.
    pub fn turn_to(&mut self, file: u32)
        ensures after { self.new ≡ record self.old { file = file; first = 0; pages = 0; here = [] } }
        ensures valid { IsPageLen self.old.page_len }
    {
        self.file = file;
        self.begin(0, 0);
    }

    // Makes the frame an empty page, after so many that were written, of which the list has those from `first` on.
    fn begin(&mut self, first: u64, pages: u64)
        requires { first ≤ pages }
        ensures after { self.new ≡ record self.old { first = first; pages = pages; here = [] } }
        ensures valid { IsPageLen self.old.page_len }
    {
        self.first = first;
        self.pages = pages;
        self.page = start_page(&mut self.frame);
    }

    // Writes the page in the frame, and begins the next.
    fn flush<D: Disk>(&mut self, disk: &mut D) -> Result<(), Stop>
        requires { self.old.page_len ≡ (D.shown disk.old).page_len }
        ensures took { OnOk result ((l : List Entry) → Took (D.shown disk.old) self.old l → Took (D.shown disk.new) self.new l) }
        ensures below { OnOk result (SameBelow self.old.file self.old.pages (D.shown disk.old) (D.shown disk.new)) }
        ensures here { OnOk result (self.new.here ≡ []) }
        ensures ok { OnOk result (Wrote 1 (D.shown disk.old) (D.shown disk.new) self.old self.new) }
        ensures err { IfErr result (StopsAt Stop.Scratch (Only self.old.file) 0 0 (D.shown disk.old) (D.shown disk.new)) }
        ensures same_err { OnErr result (self.new ≡ self.old) }
        ensures stays { SameWriter self.old self.new }
    {
        write_page(disk, self.file, self.pages, &self.frame)?;
        let first = self.first;
        let pages = self.pages.saturating_add(1);
        self.begin(first, pages);
        Ok(())
    }

    // Whether a body has room in the frame.
    fn fits(&self, body: usize) -> bool
        requires { 13 + body ≤ room_of self.now.page_len }
        ensures fits { IsTrue result ↔ (used_of self.now.here + 13 + body ≤ self.now.page_len) }
        ensures valid { IsPageLen self.now.page_len }
    {
        self.page.fits(body as u32)
    }

    // Whether the frame holds no tuple.
    fn is_empty(&self) -> bool
        ensures empty { IsTrue result ↔ (self.now.here ≡ []) }
        ensures valid { IsPageLen self.now.page_len }
    {
        let page = self.frame.bytes();
        let mut tuples = PageReader::open(page);
        tuples.next(page).is_none()
    }

    // Writes the page in the frame where the body has no room in it.
    fn make_room<D: Disk>(&mut self, disk: &mut D, body: usize) -> Result<(), Stop>
        requires page_len { self.old.page_len ≡ (D.shown disk.old).page_len }
        requires room { 13 + body ≤ room_of self.old.page_len }
        ensures took { OnOk result ((l : List Entry) → Took (D.shown disk.old) self.old l → Took (D.shown disk.new) self.new l) }
        ensures below { OnOk result (SameBelow self.old.file self.old.pages (D.shown disk.old) (D.shown disk.new)) }
        ensures fits { OnOk result (used_of self.new.here + 13 + body ≤ self.new.page_len) }
        ensures idle { Fits self.old body → Idle result (D.shown disk.old) (D.shown disk.new) }
        ensures after { (e : Entry) → length e.body ≡ body → OnOk result (self.new.here ++ e ∷ [] ≡ here_after self.old e) }
        ensures ok { OnOk result (Wrote (pages_before self.old body) (D.shown disk.old) (D.shown disk.new) self.old self.new) }
        ensures err { IfErr result (StopsAt Stop.Scratch (Only self.old.file) 0 0 (D.shown disk.old) (D.shown disk.new)) }
        ensures same_err { OnErr result (self.new ≡ self.old) }
        ensures stays { SameWriter self.old self.new }
    {
        if self.fits(body) {
            return Ok(());
        }
        self.flush(disk)
    }

    // Puts a tuple into the page in the frame.
    fn add(&mut self, key: Vid, tag: u8, body: &[u8])
        requires { used_of self.old.here + 13 + length body.now ≤ self.old.page_len }
        ensures { self.new ≡ record self.old { here = self.old.here ++ entry key tag body.now ∷ [] } }
    {
        append_to(&mut self.frame, &mut self.page, key, tag, body);
    }

    /// Takes a tuple. The page in the frame is written exactly where it has no room for this tuple.
    pub fn put<D: Disk>(&mut self, disk: &mut D, key: Vid, tag: u8, body: &[u8]) -> Result<(), Stop>
        requires page_len { self.old.page_len ≡ (D.shown disk.old).page_len }
        requires room { 13 + length body.now ≤ room_of self.old.page_len }
        ensures took { OnOk result ((l : List Entry) → Took (D.shown disk.old) self.old l → Took (D.shown disk.new) self.new (l ++ entry key tag body.now ∷ [])) }
        ensures below { OnOk result (SameBelow self.old.file self.old.pages (D.shown disk.old) (D.shown disk.new)) }
        ensures here { OnOk result (self.new.here ≡ here_after self.old (entry key tag body.now)) }
        ensures idle { Fits self.old (length body.now) → Idle result (D.shown disk.old) (D.shown disk.new) }
        ensures ok { OnOk result (Wrote (pages_before self.old (length body.now)) (D.shown disk.old) (D.shown disk.new) self.old self.new) }
        ensures err { IfErr result (StopsAt Stop.Scratch (Only self.old.file) 0 0 (D.shown disk.old) (D.shown disk.new)) }
        ensures same_err { OnErr result (self.new ≡ self.old) }
        ensures stays { SameWriter self.old self.new }
    {
        self.make_room(disk, body.len())?;
        self.add(key, tag, body);
        Ok(())
    }

    /// Writes the last page, where it has a tuple. The file then holds all that was taken since `start` or `begin_at`.
    pub fn finish<D: Disk>(&mut self, disk: &mut D) -> Result<(), Stop>
        requires { self.old.page_len ≡ (D.shown disk.old).page_len }
        ensures holds { OnOk result ((l : List Entry) → Took (D.shown disk.old) self.old l → Has (D.shown disk.new) self.new.file self.new.first self.new.pages l) }
        ensures took { OnOk result ((l : List Entry) → Took (D.shown disk.old) self.old l → Took (D.shown disk.new) self.new l) }
        ensures below { OnOk result (SameBelow self.old.file self.old.pages (D.shown disk.old) (D.shown disk.new)) }
        ensures here { OnOk result (self.new.here ≡ []) }
        ensures idle { self.old.here ≡ [] → Idle result (D.shown disk.old) (D.shown disk.new) }
        ensures ok { OnOk result (Wrote (pages_of self.old.here) (D.shown disk.old) (D.shown disk.new) self.old self.new) }
        ensures err { IfErr result (StopsAt Stop.Scratch (Only self.old.file) 0 0 (D.shown disk.old) (D.shown disk.new)) }
        ensures same_err { OnErr result (self.new ≡ self.old) }
        ensures stays { SameWriter self.old self.new }
    {
        if self.is_empty() {
            return Ok(());
        }
        self.flush(disk)?;
        Ok(())
    }

    /// Writes a page of its own: of this kind, with this one tuple, at this place, which is at most the end of the file. It is for the header of a list, and leaves the list as it is.
    /// All tuples that were taken are to be written before.
    pub fn put_page<D: Disk>(
        &mut self,
        disk: &mut D,
        page: u64,
        kind: u8,
        head: Head,
        body: &[u8],
    ) -> Result<(), Stop>
        requires page_len { self.old.page_len ≡ (D.shown disk.old).page_len }
        requires room { 13 + length body.now ≤ room_of self.old.page_len }
        requires here { self.old.here ≡ [] }
        ensures written { OnOk result ((D.shown disk.new).files self.old.file ≡ option_map (written page (lone_page self.old.page_len kind (tuple head body.now))) ((D.shown disk.old).files self.old.file)) }
        ensures limit { OnOk result ((ps : List (List ℕ)) → Tells (D.shown disk.old) self.old.file ps → HasRoom page ps) }
        ensures ok { OnOk result (Worked (Only self.old.file) 0 1 (D.shown disk.old) (D.shown disk.new)) }
        ensures err { IfErr result (StopsAt Stop.Scratch (Only self.old.file) 0 0 (D.shown disk.old) (D.shown disk.new)) }
        ensures same { self.new ≡ self.old }
        ensures stays { SameWriter self.old self.new }
    {
        single_page(&mut self.frame, kind, head, body);
        let answer = write_page(disk, self.file, page, &self.frame);
        self.page = start_page(&mut self.frame);
        answer
    }

    /// The file that it writes.
    pub fn file(&self) -> u32
        ensures { result ≡ self.now.file }
    {
        self.file
    }

    /// The page at which the list begins: 0, or where `begin_at` began.
    pub fn first(&self) -> u64
        ensures { result ≡ self.now.first }
    {
        self.first
    }

    /// The page that is written next. After `finish` the file has so many pages.
    pub fn pages(&self) -> u64
        ensures { result ≡ self.now.pages }
    {
        self.pages
    }

    /// The length of a page.
    pub fn page_len(&self) -> u32
        ensures len { result ≡ self.now.page_len }
        ensures valid { IsPageLen result }
    {
        self.frame.bytes().len() as u32
    }

    /// The frame back. What its bytes are is not said.
    pub fn close(self) -> Frame
        ensures len { length result ≡ self.page_len }
        ensures valid { IsPageLen self.page_len }
    {
        self.frame
    }
}

// Adds a tuple to the page in a frame.
fn append_to(frame: &mut Frame, page: &mut PageWriter, key: Vid, tag: u8, body: &[u8])
    requires fits { page.old.used + 13 + length body.now ≤ page.old.len }
    requires page { IsPage page.old frame.old }
    ensures page { IsPage page.new frame.new }
    ensures tuples { tuples_of frame.new ≡ tuples_of frame.old ++ entry key tag body.now ∷ [] }
    ensures len { length frame.new ≡ length frame.old }
{
    page.append(frame.bytes_mut(), key, tag, body);
}
