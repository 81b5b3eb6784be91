// One writer for each partition, each with a file of its own, one behind the other.
ghost use Rattle.std.specs.Prelude.{◌≡◌, ◌≢◌, ◌≤◌, ◌<◌, ◌+◌, ◌^◌, ◌++◌, [], ◌∷◌, ℕ, length, map, true, OnOk, IfOk, IfErr, slice_index_or};
ghost use Rattle.px_core.specs.Partition.{partition_of};
ghost use Rattle.px_core.specs.Shown.{Shown, Clean, Broke, Only};
ghost use Rattle.px_frames.specs.Shares.{SamePlaces};
ghost use Rattle.px_meaning.specs.Merge.{Pairs};
ghost use Rattle.px_meaning.specs.Graph.{room_of};
ghost use Rattle.px_pages.specs.Page.{IsPageLen};
ghost use Rattle.px_stream.specs.Stream.{Holds};
ghost use Rattle.px_stream.specs.Views.{WriterView};
ghost use Rattle.px_connectors.specs.Messages.{tagged};
ghost use Rattle.px_connectors.specs.Writers.{WritersView, parts_in, writer_at, IsPartFile, OfWriter, IsFileOf, EachWriter, WritesPart, AreWriters, TookAll, TookParts, HoldParts, SameWriters};

use arrayvec::ArrayVec;
use px_core::{Disk, Stop, Vid, part_of};
use px_frames::Share;
use px_stream::Writer;
use std::marker::Model;

/// The most partitions.
pub const MOST_PARTS: usize = 16;

/// One writer for each partition: that of partition q writes the file q behind the first. Each has a frame of a share.
#[derive(Drop)]
pub struct PartWriters {
    first: u32,
    frame_len: u32,
    writers: ArrayVec<Option<Writer>, MOST_PARTS>,
    pages: [u64; MOST_PARTS],
}

impl Model for PartWriters {
    ghost use Rattle.std.specs.Prelude.{◌≡◌, length};
    ghost use Rattle.px_connectors.specs.Writers.{WritersView, AreWriters};

    ghost Value = { WritersView };

    ghost view = { λ p. record {
      first = p.first;
      frame_len = p.frame_len;
      writers = p.writers.items;
      pages = p.pages;
    } };

    ghost invariant = { λ p. AreWriters (record {
      first = p.first;
      frame_len = p.frame_len;
      writers = p.writers.items;
      pages = p.pages;
    }) × (length p.pages ≡ 16) };
}

impl PartWriters {
    /// Writers to be started, in so many files from the first on. Each takes a frame of the share.
    pub fn open(share: &mut Share, parts: u32, first: u32) -> PartWriters
        requires some { 1 ≤ parts }
        requires most { parts ≤ 16 }
        requires frames { parts ≤ length share.old.frames }
        requires first { first + 16 ≤ 2 ^ 31 }
        ensures first { result.first ≡ first }
        ensures parts { parts_in result ≡ parts }
        ensures frame_len { result.frame_len ≡ share.old.frame_len }
        ensures frames { length share.new.frames + parts ≡ length share.old.frames }
        ensures within { length share.old.frames ≤ share.old.size }
        ensures share { SamePlaces share.old share.new }
        ensures are { AreWriters result }
    {
        let mut writers = ArrayVec::new();
        let _places = share.size();
        let frame_len = share.frame(0).len() as u32;
        for q in 0..parts {
            writers.push(Some(Writer::new(share.take(), first + q)));
        }
        PartWriters {
            first,
            frame_len,
            writers,
            pages: [0; MOST_PARTS],
        }
    }

    /// All frames go back into the share.
    pub fn close(self, share: &mut Share)
        requires frame_len { self.frame_len ≡ share.old.frame_len }
        requires room { length share.old.frames + parts_in self ≤ share.old.size }
        ensures frames { length share.new.frames ≡ length share.old.frames + parts_in self }
        ensures share { SamePlaces share.old share.new }
    {
        let PartWriters { mut writers, .. } = self;
        while let Some(writer) = writers.pop() {
            give_back(share, writer);
        }
    }

    // The number of partitions.
    fn parts(&self) -> u32
        ensures value { result ≡ parts_in self.now }
        ensures are { AreWriters self.now }
    {
        self.writers.len() as u32
    }

    // The partition of a vid.
    fn part(&self, vid: Vid) -> u32
        ensures value { result ≡ partition_of vid (parts_in self.now) }
        ensures below { result < parts_in self.now }
    {
        part_of(vid, self.parts())
    }

    /// Turns to other files, from this first one on, which are to be started.
    pub fn turn_to(&mut self, first: u32)
        requires { first + 16 ≤ 2 ^ 31 }
        ensures stays { SameWriters (record self.old { first = first }) self.new }
        ensures are { AreWriters self.new }
    {
        turn_all(&mut self.writers, first);
        self.first = first;
    }

    /// Clears the files, and begins with empty lists.
    pub fn start<D: Disk>(&mut self, disk: &mut D) -> Result<(), Stop>
        requires { self.old.frame_len ≡ (D.shown disk.old).page_len }
        ensures took { OnOk result ((D.shown disk.old).tells ≡ true → (tag : ℕ) → TookParts (D.shown disk.new) tag self.new []) }
        ensures ok { OnOk result (Clean (IsPartFile self.old.first) (D.shown disk.old) (D.shown disk.new)) }
        ensures err { IfErr result (Broke Stop.Scratch (IsPartFile self.old.first) (D.shown disk.old) (D.shown disk.new)) }
        ensures stays { SameWriters self.old self.new }
        ensures are { AreWriters self.new }
        ensures pages { self.new.pages ≡ self.old.pages }
    {
        for q in 0..self.parts() {
            self.start_at(disk, q)?;
        }
        Ok(())
    }

    // Starts the writer of a partition.
    fn start_at<D: Disk>(&mut self, disk: &mut D, q: u32) -> Result<(), Stop>
        requires part { q < parts_in self.old }
        requires page_len { self.old.frame_len ≡ (D.shown disk.old).page_len }
        ensures took { OnOk result ((D.shown disk.old).tells ≡ true → (tag : ℕ) → OfWriter (λ w. TookAll (D.shown disk.new) tag w []) (writer_at self.new q)) }
        ensures others { (i : ℕ) → i ≢ q → writer_at self.new i ≡ writer_at self.old i }
        ensures ok { OnOk result (Clean (Only (self.old.first + q)) (D.shown disk.old) (D.shown disk.new)) }
        ensures err { IfErr result (Broke Stop.Scratch (Only (self.old.first + q)) (D.shown disk.old) (D.shown disk.new)) }
        ensures stays { SameWriters self.old self.new }
        ensures are { AreWriters self.new }
        ensures pages { self.new.pages ≡ self.old.pages }
    {
        start_in(disk, &mut self.writers[q as usize])?;
        Ok(())
    }

    /// Puts a pair into the file of the partition of its vid.
    pub fn put<D: Disk>(&mut self, disk: &mut D, vid: Vid, tag: u8, body: &[u8]) -> Result<(), Stop>
        requires page_len { self.old.frame_len ≡ (D.shown disk.old).page_len }
        requires room { 13 + length body.now ≤ room_of self.old.frame_len }
        ensures took { OnOk result ((l : Pairs) → TookParts (D.shown disk.old) tag self.old l → TookParts (D.shown disk.new) tag self.new (l ++ (vid, body.now) ∷ [])) }
        ensures ok { OnOk result (Clean (IsPartFile self.old.first) (D.shown disk.old) (D.shown disk.new)) }
        ensures err { IfErr result (Broke Stop.Scratch (IsPartFile self.old.first) (D.shown disk.old) (D.shown disk.new)) }
        ensures stays { SameWriters self.old self.new }
        ensures are { AreWriters self.new }
        ensures pages { self.new.pages ≡ self.old.pages }
    {
        let part = self.part(vid);
        put_in(disk, &mut self.writers[part as usize], vid, tag, body)?;
        Ok(())
    }

    /// Writes the last pages. The files then hold all that was put.
    pub fn finish<D: Disk>(&mut self, disk: &mut D) -> Result<(), Stop>
        requires { self.old.frame_len ≡ (D.shown disk.old).page_len }
        ensures holds { OnOk result ((tag : ℕ) (l : Pairs) → TookParts (D.shown disk.old) tag self.old l → HoldParts (D.shown disk.new) tag self.old.first (parts_in self.old) self.new.pages l) }
        ensures ok { OnOk result (Clean (IsPartFile self.old.first) (D.shown disk.old) (D.shown disk.new)) }
        ensures err { IfErr result (Broke Stop.Scratch (IsPartFile self.old.first) (D.shown disk.old) (D.shown disk.new)) }
        ensures stays { SameWriters self.old self.new }
        ensures are { AreWriters self.new }
    {
        for q in 0..self.parts() {
            self.finish_at(disk, q)?;
        }
        Ok(())
    }

    // Finishes the writer of a partition, and notes how many pages its file has.
    fn finish_at<D: Disk>(&mut self, disk: &mut D, q: u32) -> Result<(), Stop>
        requires part { q < parts_in self.old }
        requires page_len { self.old.frame_len ≡ (D.shown disk.old).page_len }
        ensures holds { OnOk result ((tag : ℕ) (l : Pairs) → OfWriter (λ w. TookAll (D.shown disk.old) tag w l) (writer_at self.old q)
            → Holds (D.shown disk.new) (self.old.first + q) (slice_index_or self.new.pages q 0) (map (tagged tag) l)) }
        ensures others { (i : ℕ) → i ≢ q → writer_at self.new i ≡ writer_at self.old i }
        ensures other_pages { (i : ℕ) → i ≢ q → slice_index_or self.new.pages i 0 ≡ slice_index_or self.old.pages i 0 }
        ensures ok { OnOk result (Clean (Only (self.old.first + q)) (D.shown disk.old) (D.shown disk.new)) }
        ensures err { IfErr result (Broke Stop.Scratch (Only (self.old.first + q)) (D.shown disk.old) (D.shown disk.new)) }
        ensures stays { SameWriters self.old self.new }
        ensures are { AreWriters self.new }
    {
        let q = q as usize;
        let pages = finish_in(disk, &mut self.writers[q])?;
        self.pages[q] = pages;
        Ok(())
    }

    /// How many pages each file had when it was finished last.
    pub fn pages(&self) -> [u64; MOST_PARTS]
        ensures value { result ≡ self.now.pages }
        ensures are { AreWriters self.now }
    {
        self.pages
    }
}

// Puts the frame of the writer back into the share.
fn give_back(share: &mut Share, writer: Option<Writer>)
    requires some { OfWriter (λ w. w.page_len ≡ share.old.frame_len) writer }
    requires room { length share.old.frames < share.old.size }
    ensures len { length share.new.frames ≡ length share.old.frames + 1 }
    ensures stays { SamePlaces share.old share.new }
{
    match writer {
        Some(writer) => share.put(writer.close()),
        None => unreachable!(),
    }
}

// Turns each writer to the file of its partition.
fn turn_all(writers: &mut [Option<Writer>], first: u32)
    requires first { first + 16 ≤ 2 ^ 31 }
    requires most { length writers.old ≤ 16 }
    requires some { EachWriter (λ q w. Unit {0}) writers.old }
    ensures each { (old len : ℕ) → EachWriter (WritesPart old len) writers.old → EachWriter (WritesPart first len) writers.new }
    ensures len { length writers.new ≡ length writers.old }
{
    for (q, writer) in writers.iter_mut().enumerate() {
        turn_in(writer, first + q as u32);
    }
}

// Turns the writer to this file.
fn turn_in(writer: &mut Option<Writer>, file: u32)
    requires some { OfWriter (λ w. Unit {0}) writer.old }
    ensures part { (old first len q : ℕ) → file ≡ first + q → OfWriter (WritesPart old len q) writer.old → OfWriter (WritesPart first len q) writer.new }
{
    match writer {
        Some(writer) => writer.turn_to(file),
        None => unreachable!(),
    }
}

// Starts the writer.
fn start_in<D: Disk>(disk: &mut D, writer: &mut Option<Writer>) -> Result<(), Stop>
    requires page_len { OfWriter (λ w. w.page_len ≡ (D.shown disk.old).page_len) writer.old }
    ensures took { OnOk result ((D.shown disk.old).tells ≡ true → (tag : ℕ) → OfWriter (λ w. TookAll (D.shown disk.new) tag w []) writer.new) }
    ensures ok { OnOk result (Clean (IsFileOf writer.old) (D.shown disk.old) (D.shown disk.new)) }
    ensures err { IfErr result (Broke Stop.Scratch (IsFileOf writer.old) (D.shown disk.old) (D.shown disk.new)) }
    ensures stays { (first len q : ℕ) → OfWriter (WritesPart first len q) writer.old → OfWriter (WritesPart first len q) writer.new }
{
    match writer {
        Some(writer) => writer.start(disk),
        None => unreachable!(),
    }
}

// Puts a tuple into the file of the writer.
fn put_in<D: Disk>(
    disk: &mut D,
    writer: &mut Option<Writer>,
    vid: Vid,
    tag: u8,
    body: &[u8],
) -> Result<(), Stop>
    requires page_len { OfWriter (λ w. w.page_len ≡ (D.shown disk.old).page_len) writer.old }
    requires room { 13 + length body.now ≤ room_of (D.shown disk.old).page_len }
    ensures took { OnOk result ((l : Pairs) → OfWriter (λ w. TookAll (D.shown disk.old) tag w l) writer.old → OfWriter (λ w. TookAll (D.shown disk.new) tag w (l ++ (vid, body.now) ∷ [])) writer.new) }
    ensures ok { OnOk result (Clean (IsFileOf writer.old) (D.shown disk.old) (D.shown disk.new)) }
    ensures err { IfErr result (Broke Stop.Scratch (IsFileOf writer.old) (D.shown disk.old) (D.shown disk.new)) }
    ensures stays { (first len q : ℕ) → OfWriter (WritesPart first len q) writer.old → OfWriter (WritesPart first len q) writer.new }
{
    match writer {
        Some(writer) => put_one(disk, writer, vid, tag, body),
        None => unreachable!(),
    }
}

// Puts a tuple into the file of a writer.
fn put_one<D: Disk>(
    disk: &mut D,
    writer: &mut Writer,
    vid: Vid,
    tag: u8,
    body: &[u8],
) -> Result<(), Stop>
    requires page_len { writer.old.page_len ≡ (D.shown disk.old).page_len }
    requires room { 13 + length body.now ≤ room_of (D.shown disk.old).page_len }
    ensures took { OnOk result ((l : Pairs) → TookAll (D.shown disk.old) tag writer.old l → TookAll (D.shown disk.new) tag writer.new (l ++ (vid, body.now) ∷ [])) }
    ensures ok { OnOk result (Clean (Only writer.old.file) (D.shown disk.old) (D.shown disk.new)) }
    ensures err { IfErr result (Broke Stop.Scratch (Only writer.old.file) (D.shown disk.old) (D.shown disk.new)) }
    ensures stays { (first len q : ℕ) → WritesPart first len q writer.old → WritesPart first len q writer.new }
{
    writer.put(disk, vid, tag, body)?;
    Ok(())
}

// Finishes the writer, and answers how many pages its file has.
fn finish_in<D: Disk>(disk: &mut D, writer: &mut Option<Writer>) -> Result<u64, Stop>
    requires page_len { OfWriter (λ w. w.page_len ≡ (D.shown disk.old).page_len) writer.old }
    ensures holds { IfOk result (λ pages. (tag file : ℕ) (l : Pairs) → OfWriter (λ w. w.file ≡ file) writer.old → OfWriter (λ w. TookAll (D.shown disk.old) tag w l) writer.old
        → Holds (D.shown disk.new) file pages (map (tagged tag) l)) }
    ensures ok { OnOk result (Clean (IsFileOf writer.old) (D.shown disk.old) (D.shown disk.new)) }
    ensures err { IfErr result (Broke Stop.Scratch (IsFileOf writer.old) (D.shown disk.old) (D.shown disk.new)) }
    ensures stays { (first len q : ℕ) → OfWriter (WritesPart first len q) writer.old → OfWriter (WritesPart first len q) writer.new }
{
    match writer {
        Some(writer) => finish_one(disk, writer),
        None => unreachable!(),
    }
}

// Finishes a writer, and answers how many pages its file has.
fn finish_one<D: Disk>(disk: &mut D, writer: &mut Writer) -> Result<u64, Stop>
    requires page_len { writer.old.page_len ≡ (D.shown disk.old).page_len }
    ensures holds { IfOk result (λ pages. (tag file : ℕ) (l : Pairs) → writer.old.file ≡ file → TookAll (D.shown disk.old) tag writer.old l → Holds (D.shown disk.new) file pages (map (tagged tag) l)) }
    ensures ok { OnOk result (Clean (Only writer.old.file) (D.shown disk.old) (D.shown disk.new)) }
    ensures err { IfErr result (Broke Stop.Scratch (Only writer.old.file) (D.shown disk.old) (D.shown disk.new)) }
    ensures stays { (first len q : ℕ) → WritesPart first len q writer.old → WritesPart first len q writer.new }
{
    writer.finish(disk)?;
    Ok(writer.pages())
}
