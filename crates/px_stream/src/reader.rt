// A file of tuples is read.
ghost use Rattle.std.specs.Prelude.{◌≡◌, ◌≢◌, ◌<◌, ◌≤◌, ◌+◌, ◌-◌, ◌↔◌, [], ◌∷◌, ℕ, List, length, drop, IsTrue, OnOk, OnErr, IfErr, IfSome, IfOk, IfNone, OnSome, IsOk, IsOkAnd, IsSomeAnd, ⊤};
ghost use Rattle.px_core.specs.Shown.{Shown, Only, NoFile, Worked, StopsAt, Idle};
ghost use Rattle.px_frames.specs.Buffer.{SameRoom, IsWithin};
ghost use Rattle.px_pages.specs.Entry.{Entry};
ghost use Rattle.px_meaning.specs.Graph.{room_of};
ghost use Rattle.px_pages.specs.Page.{IsPageLen, entry_of};
ghost use Rattle.px_stream.specs.Views.{here_of};

use crate::paging::read_page;
use px_core::{Disk, Stop, Vid};
use px_frames::{Buf, Frame, Wide};
use px_pages::{PageReader, Tuple};
use std::marker::Model;

/// What stands before the body of a tuple.
#[derive(Clone, Copy, Debug, PartialEq, Eq)]
pub struct Head {
    pub key: Vid,
    /// One of `px_pages::tags`.
    pub tag: u8,
}

/// Gives the tuples of a file, page by page. Each page is read once, and only when none is left of the one before.
/// The only error is `Stop::Scratch`, where the disk failed; after it nothing is said of the tuples until the next `start`.
#[derive(Drop)]
pub struct Reader {
    frame: Frame,
    file: u32,
    page: u64,
    pages: u64,
    // None until a page is in the frame.
    tuples: Option<PageReader>,
}

impl Model for Reader {
    ghost use Rattle.std.specs.Prelude.{◌≤◌, length};
    ghost use Rattle.px_pages.specs.Page.{IsPageLen};
    ghost use Rattle.px_stream.specs.Views.{ReaderView, here_of};

    ghost Value = { ReaderView };

    ghost view = { λ r. record {
      file = r.file;
      page = r.page;
      pages = r.pages;
      page_len = length r.frame;
      here = here_of r.tuples r.frame;
    } };

    ghost invariant = { λ r. IsPageLen (length r.frame) × (r.page ≤ r.pages) };
}

impl Reader {
    ghost use Rattle.px_stream.specs.Counts.{SameReader, WentOn, IsBetween, left};
    ghost use Rattle.px_stream.specs.Stream.{ToGive, Has, Holds, Leads, Shows, IsOver, tuple, first_body, body_within};

    /// A reader of this file that has nothing to give. Pages are as long as the frame.
    pub fn new(frame: Frame, file: u32) -> Reader
        requires { IsPageLen (length frame) }
        ensures file { result.file ≡ file }
        ensures page_len { result.page_len ≡ length frame }
        ensures page { result.page ≡ 0 }
        ensures pages { result.pages ≡ 0 }
        ensures here { result.here ≡ [] }
    {
        Reader {
            frame,
            file,
            page: 0,
            pages: 0,
            tuples: None,
        }
    }

    /// Goes to the front of the file, of which this is the number of pages, as its writer's `pages` gave it. It reads no page.
    pub fn start(&mut self, pages: u64)
        ensures to_give { (s : Shown) (l : List Entry) → Holds s self.old.file pages l → ToGive s self.new l }
        ensures after { self.new ≡ record self.old { page = 0; pages = pages; here = [] } }
        ensures stays { SameReader self.old self.new }
    {
        self.start_at(0, pages);
    }

    /// Goes to the page `first` of the file, to give its tuples and those of the pages after it, up to before the page `last`. It reads no page.
    pub fn start_at(&mut self, first: u64, last: u64)
        requires { first ≤ last }
        ensures to_give { (s : Shown) (l : List Entry) → Has s self.old.file first last l → ToGive s self.new l }
        ensures after { self.new ≡ record self.old { page = first; pages = last; here = [] } }
        ensures stays { SameReader self.old self.new }
    {
        self.tuples = None;
        self.page = first;
        self.pages = last;
    }

    // Reads the next page.
    fn turn<D: Disk>(&mut self, disk: &mut D) -> Result<(), Stop>
        requires page_len { self.old.page_len ≡ (D.shown disk.old).page_len }
        requires more { self.old.page < self.old.pages }
        requires empty { self.old.here ≡ [] }
        ensures to_give { OnOk result ((l : List Entry) → ToGive (D.shown disk.old) self.old l → ToGive (D.shown disk.new) self.new l) }
        ensures ok { OnOk result (Worked NoFile 1 0 (D.shown disk.old) (D.shown disk.new)) }
        ensures err { IfErr result (StopsAt Stop.Scratch (Only self.old.file) 0 0 (D.shown disk.old) (D.shown disk.new)) }
        ensures page { OnOk result (self.new.page ≡ self.old.page + 1) }
        ensures same_err { OnErr result (self.new ≡ self.old) }
        ensures falls { OnOk result (left self.new < left self.old) }
        ensures pages { self.new.pages ≡ self.old.pages }
        ensures stays { SameReader self.old self.new }
    {
        read_page(disk, self.file, self.page, &mut self.frame)?;
        self.page += 1;
        let tuples = PageReader::open(self.frame.bytes());
        self.tuples = Some(tuples);
        Ok(())
    }

    // Reads on to a page with a tuple, or to the end.
    fn settle<D: Disk>(&mut self, disk: &mut D) -> Result<(), Stop>
        requires { self.old.page_len ≡ (D.shown disk.old).page_len }
        ensures to_give { OnOk result ((l : List Entry) → ToGive (D.shown disk.old) self.old l → ToGive (D.shown disk.new) self.new l) }
        ensures settled { OnOk result (self.new.here ≡ [] → self.new.page ≡ self.new.pages) }
        ensures still { (self.old.here ≢ []) → self.new ≡ self.old }
        ensures idle { (self.old.here ≢ []) → Idle result (D.shown disk.old) (D.shown disk.new) }
        ensures ok { OnOk result (Worked NoFile (self.new.page - self.old.page) 0 (D.shown disk.old) (D.shown disk.new)) }
        ensures err { IfErr result (StopsAt Stop.Scratch (Only self.old.file) (self.new.page - self.old.page) 0 (D.shown disk.old) (D.shown disk.new)) }
        ensures between { OnErr result (IsBetween self.new) }
        ensures on { WentOn (D.shown disk.old) (D.shown disk.new) self.old self.new }
    {
        let pages = self.pages;
        while self.edge() && self.page < pages {
            self.turn(disk)?;
        }
        Ok(())
    }

    // The next tuple of the page in the frame. A body above the buffer's limit, which no writer wrote, is left out.
    #[inline]
    fn take_one(&mut self, into: &mut Buf) -> Option<Head>
        ensures none { IfNone result (self.old.here ≡ []) }
        ensures same { IfNone result (self.new ≡ self.old) }
        ensures unused { IfNone result (into.new ≡ into.old) }
        ensures some { IfSome result (λ h. self.old.here ≡ tuple h (first_body self.old.here) ∷ self.new.here) }
        ensures body { OnSome result (into.new.bytes ≡ body_within into.old.limit (first_body self.old.here)) }
        ensures within { OnSome result (IsWithin into.new) }
        ensures room { SameRoom into.old into.new }
        ensures page { self.new.page ≡ self.old.page }
        ensures pages { self.new.pages ≡ self.old.pages }
        ensures stays { SameReader self.old self.new }
    {
        match next_in(&mut self.tuples, self.frame.bytes()) {
            None => None,
            Some(found) => {
                let at = found.at as usize;
                let body = &self.frame.bytes()[at..at + found.len as usize];
                match into.set(body) {
                    Ok(()) => {}
                    Err(Wide) => into.clear(),
                }
                Some(Head {
                    key: found.key,
                    tag: found.tag,
                })
            }
        }
    }

    // The head of the next tuple of the page in the frame, which is not moved past.
    #[inline]
    fn probe(&self) -> Option<Head>
        ensures none { IfNone result (self.now.here ≡ []) }
        ensures some { IfSome result (λ h. Shows h self.now) }
    {
        let mut tuples = self.tuples;
        match next_in(&mut tuples, self.frame.bytes()) {
            None => None,
            Some(found) => Some(Head {
                key: found.key,
                tag: found.tag,
            }),
        }
    }

    /// The next tuple, whose body goes into the buffer, or `None` after the last of its pages. After `None` and after an error the buffer is as before.
    /// It reads pages only where no tuple is left of the page in the frame, and each of its pages once from one `start` to the next.
    /// A page that no writer wrote may hold a body above the buffer's limit: in its place the buffer gets no bytes.
    pub fn next<D: Disk>(&mut self, disk: &mut D, into: &mut Buf) -> Result<Option<Head>, Stop>
        requires page_len { self.old.page_len ≡ (D.shown disk.old).page_len }
        requires limit { room_of self.old.page_len ≤ 13 + into.old.limit }
        ensures none { IfOk result (λ o. IfNone o ((l : List Entry) → ToGive (D.shown disk.old) self.old l → l ≡ [])) }
        ensures some { IfOk result (λ o. IfSome o (λ h. (l : List Entry) → ToGive (D.shown disk.old) self.old l → Leads (tuple h into.new.bytes) l (ToGive (D.shown disk.new) self.new))) }
        ensures over { IfOk result (λ o. IfNone o (IsOver self.new)) }
        ensures front { (self.old.here ≢ []) → IsOkAnd result (λ o. IsSomeAnd o (λ h. self.old.here ≡ tuple h (first_body self.old.here) ∷ self.new.here)) }
        ensures body { (self.old.here ≢ []) → into.new.bytes ≡ body_within into.old.limit (first_body self.old.here) }
        ensures still { (self.old.here ≢ []) → self.new.page ≡ self.old.page }
        ensures untouched { (self.old.here ≢ []) → D.shown disk.new ≡ D.shown disk.old }
        ensures falls { IfOk result (λ o. OnSome o (left self.new < left self.old)) }
        ensures ok { OnOk result (Worked NoFile (self.new.page - self.old.page) 0 (D.shown disk.old) (D.shown disk.new)) }
        ensures err { IfErr result (StopsAt Stop.Scratch (Only self.old.file) (self.new.page - self.old.page) 0 (D.shown disk.old) (D.shown disk.new)) }
        ensures between { OnErr result (IsBetween self.new) }
        ensures unused { IfOk result (λ o. IfNone o (into.new ≡ into.old)) }
        ensures unused_err { OnErr result (into.new ≡ into.old) }
        ensures within { IfOk result (λ o. OnSome o (IsWithin into.new)) }
        ensures room { SameRoom into.old into.new }
        ensures on { WentOn (D.shown disk.old) (D.shown disk.new) self.old self.new }
    {
        self.settle(disk)?;
        Ok(self.take_one(into))
    }

    /// The head that `next` will give, or `None` where that will give `None`. It moves past no tuple.
    pub fn peek<D: Disk>(&mut self, disk: &mut D) -> Result<Option<Head>, Stop>
        requires { self.old.page_len ≡ (D.shown disk.old).page_len }
        ensures to_give { OnOk result ((l : List Entry) → ToGive (D.shown disk.old) self.old l → ToGive (D.shown disk.new) self.new l) }
        ensures none { IfOk result (λ o. IfNone o ((l : List Entry) → ToGive (D.shown disk.old) self.old l → l ≡ [])) }
        ensures some { IfOk result (λ o. IfSome o (λ h. (l : List Entry) → ToGive (D.shown disk.old) self.old l → Leads (tuple h (first_body self.new.here)) l (λ _. ⊤))) }
        ensures over { IfOk result (λ o. IfNone o (IsOver self.new)) }
        ensures shows { IfOk result (λ o. IfSome o (λ h. Shows h self.new)) }
        ensures still { (self.old.here ≢ []) → self.new ≡ self.old }
        ensures idle { (self.old.here ≢ []) → Idle result (D.shown disk.old) (D.shown disk.new) }
        ensures ok { OnOk result (Worked NoFile (self.new.page - self.old.page) 0 (D.shown disk.old) (D.shown disk.new)) }
        ensures err { IfErr result (StopsAt Stop.Scratch (Only self.old.file) (self.new.page - self.old.page) 0 (D.shown disk.old) (D.shown disk.new)) }
        ensures between { OnErr result (IsBetween self.new) }
        ensures on { WentOn (D.shown disk.old) (D.shown disk.new) self.old self.new }
    {
        self.settle(disk)?;
        Ok(self.probe())
    }

    /// The body of the next tuple, whose head `peek` has just given. It lies in the reader's frame.
    #[inline]
    pub fn peeked(&self) -> &[u8]
        requires { self.now.here ≢ [] }
        ensures { result.now ≡ first_body self.now.here }
    {
        let mut tuples = self.tuples;
        match next_in(&mut tuples, self.frame.bytes()) {
            None => unreachable!(),
            Some(found) => {
                let at = found.at as usize;
                &self.frame.bytes()[at..at + found.len as usize]
            }
        }
    }

    /// Moves past the next tuple, whose head `peek` has just given. Its body is not copied.
    #[inline]
    pub fn pass(&mut self)
        requires { self.old.here ≢ [] }
        ensures to_give { (s : Shown) (l : List Entry) → ToGive s self.old l → ToGive s self.new (drop 1 l) }
        ensures after { self.new ≡ record self.old { here = drop 1 self.old.here } }
        ensures falls { left self.new < left self.old }
    {
        let passed = next_in(&mut self.tuples, self.frame.bytes());
        match passed {
            None => unreachable!(),
            Some(_) => {}
        }
    }

    /// Whether no tuple of the page in the frame is left, as before the first page.
    #[inline]
    pub fn edge(&self) -> bool
        ensures { IsTrue result ↔ (self.now.here ≡ []) }
    {
        none_in(&self.tuples, self.frame.bytes())
    }

    /// The length of a page.
    pub fn page_len(&self) -> u32
        ensures len { result ≡ self.now.page_len }
        ensures valid { IsPageLen result }
    {
        self.frame.bytes().len() as u32
    }

    /// The frame back. What its bytes are is not said.
    pub fn close(self) -> Frame
        ensures len { length result ≡ self.page_len }
        ensures valid { IsPageLen self.page_len }
    {
        self.frame
    }
}

// Whether no tuple is left of the page in a frame, as where no page is in it.
#[inline]
fn none_in(tuples: &Option<PageReader>, page: &[u8]) -> bool
    requires { IsPageLen (length page.now) }
    ensures { IsTrue result ↔ (here_of tuples.now page.now ≡ []) }
{
    match tuples {
        None => true,
        Some(tuples) => tuples.at_end(page),
    }
}

// The next tuple of the page in a frame, where a page is in it.
#[inline]
fn next_in(tuples: &mut Option<PageReader>, page: &[u8]) -> Option<Tuple>
    requires { IsPageLen (length page.now) }
    ensures none { IfNone result (here_of tuples.old page.now ≡ []) }
    ensures same { IfNone result (tuples.new ≡ tuples.old) }
    ensures some { IfSome result (λ t. here_of tuples.old page.now ≡ entry_of t page.now ∷ here_of tuples.new page.now) }
    ensures within { IfSome result (λ t. t.at + t.len ≤ length page.now) }
{
    match tuples {
        None => None,
        Some(tuples) => tuples.next(page),
    }
}
