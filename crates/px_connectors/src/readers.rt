// One reader for each sender, over the files from all of them to one receiver.
ghost use Rattle.std.specs.Prelude.{◌≡◌, ◌≢◌, ◌≤◌, ◌<◌, ◌+◌, ◌*◌, [], ℕ, length, slice_index_or, IsTrue, IsFalse, IfOk, IfErr, IfNone, IfSome, OnOk, OnSome};
ghost use Rattle.px_core.specs.Bits.{IsBit};
ghost use Rattle.px_core.specs.Shown.{Shown, Clean, Broke, NoFile};
ghost use Rattle.px_frames.specs.Buffer.{SameRoom, IsWithin};
ghost use Rattle.px_frames.specs.Shares.{SamePlaces};
ghost use Rattle.px_meaning.specs.Graph.{room_of};
ghost use Rattle.px_meaning.specs.Merge.{Pairs};
ghost use Rattle.px_program.specs.Groups.{LeadsPair};
ghost use Rattle.px_stream.specs.Counts.{left};
ghost use Rattle.px_stream.specs.Stream.{IsOver};
ghost use Rattle.px_connectors.specs.Views.{IsConnectorFile, at};
ghost use Rattle.px_connectors.specs.Receiving.{bit, OfReader, IsReader, AreReaders, HasTuple, HasAt, AllOver, GivesPairs, GiveAll, FilesHold, left_in, all_left};

use crate::MOST_PARTS;
use arrayvec::ArrayVec;
use px_core::{Disk, Stop, Turns, Vid};
use px_frames::{Buf, Share};
use px_stream::Reader;

/// One reader for each sender. Each has a frame of a share.
#[derive(Drop)]
pub(crate) struct PartReaders {
    pub(crate) readers: ArrayVec<Option<Reader>, MOST_PARTS>,
    // The sender whose frame is given.
    pub(crate) sender: u32,
}

/// The file from a sender to receiver 0.
pub(crate) fn first_file(sender: u32) -> u32
    requires { sender < 16 }
    ensures { result ≡ 256 + 16 * sender }
{
    256 + 16 * sender
}

// The file from a sender to a receiver.
fn file_from(sender: u32, receiver: u32) -> u32
    requires sender { sender < 16 }
    requires receiver { receiver < 16 }
    ensures { result ≡ 256 + 16 * sender + receiver }
{
    first_file(sender) + receiver
}

// How many pages the file from a sender to a receiver has.
fn pages_from(pages: &[[u64; MOST_PARTS]; MOST_PARTS], sender: u32, receiver: u32) -> u64
    requires sender { sender < 16 }
    requires receiver { receiver < 16 }
    ensures { result ≡ slice_index_or (slice_index_or pages.now sender []) receiver 0 }
{
    pages[sender as usize][receiver as usize]
}

impl PartReaders {
    /// Readers at the front of the files from so many senders to a receiver. Each takes a frame of the share.
    pub(crate) fn open(
        share: &mut Share,
        parts: u32,
        receiver: u32,
        pages: &[[u64; MOST_PARTS]; MOST_PARTS],
    ) -> PartReaders
        requires most { parts ≤ 16 }
        requires frames { parts ≤ length share.old.frames }
        requires receiver { receiver < 16 }
        ensures gives { (s : Shown) (ls : ℕ → Pairs) → FilesHold s receiver parts pages.now ls → GiveAll s result.readers.items ls }
        ensures are { AreReaders share.old.frame_len result.readers.items }
        ensures count { length result.readers.items ≡ parts }
        ensures frames { length share.new.frames + parts ≡ length share.old.frames }
        ensures share { SamePlaces share.old share.new }
    {
        let _places = share.size();
        let mut readers = ArrayVec::new();
        for p in 0..parts {
            let mut reader = Reader::new(share.take(), file_from(p, receiver));
            reader.start(pages_from(pages, p, receiver));
            readers.push(Some(reader));
        }
        PartReaders { readers, sender: 0 }
    }

    /// All frames go back into the share.
    pub(crate) fn close(self, share: &mut Share)
        requires are { AreReaders share.old.frame_len self.readers.items }
        requires room { length share.old.frames + length self.readers.items ≤ share.old.size }
        ensures frames { length share.new.frames ≡ length share.old.frames + length self.readers.items }
        ensures share { SamePlaces share.old share.new }
    {
        let PartReaders { mut readers, .. } = self;
        while let Some(reader) = readers.pop() {
            give_back(share, reader);
        }
    }

    /// The next pair. The sender whose frame is given goes on until no tuple of it is left; then the turns choose among those that have tuples.
    pub(crate) fn next<D: Disk, T: Turns>(
        &mut self,
        disk: &mut D,
        turns: &mut T,
        into: &mut Buf,
    ) -> Result<Option<Vid>, Stop>
        requires most { length self.old.readers.items ≤ 16 }
        requires are { AreReaders (D.shown disk.old).page_len self.old.readers.items }
        requires limit { 13 + into.old.limit ≡ room_of (D.shown disk.old).page_len }
        ensures some { IfOk result (λ o. IfSome o (λ v. (ls : ℕ → Pairs) → GiveAll (D.shown disk.old) self.old.readers.items ls
            → (p : ℕ) × (p < length self.old.readers.items) × LeadsPair v into.new.bytes (ls p) (λ l. GiveAll (D.shown disk.new) self.new.readers.items (at p l ls)))) }
        ensures none { IfOk result (λ o. IfNone o ((ls : ℕ → Pairs) → GiveAll (D.shown disk.old) self.old.readers.items ls → (p : ℕ) → p < length self.old.readers.items → ls p ≡ [])) }
        ensures falls { IfOk result (λ o. OnSome o (all_left self.new.readers.items < all_left self.old.readers.items)) }
        ensures left { all_left self.new.readers.items ≤ all_left self.old.readers.items }
        ensures ok { OnOk result (Clean NoFile (D.shown disk.old) (D.shown disk.new)) }
        ensures err { IfErr result (Broke Stop.Scratch IsConnectorFile (D.shown disk.old) (D.shown disk.new)) }
        ensures are { AreReaders (D.shown disk.old).page_len self.new.readers.items }
        ensures count { length self.new.readers.items ≡ length self.old.readers.items }
        ensures within { IfOk result (λ o. OnSome o (IsWithin into.new)) }
        ensures room { SameRoom into.old into.new }
    {
        let vid = next_of(disk, &mut self.readers, &mut self.sender, turns, into)?;
        Ok(vid)
    }
}

// Puts the frame of the reader back into the share.
fn give_back(share: &mut Share, reader: Option<Reader>)
    requires some { OfReader (IsReader share.old.frame_len) reader }
    requires room { length share.old.frames < share.old.size }
    ensures len { length share.new.frames ≡ length share.old.frames + 1 }
    ensures stays { SamePlaces share.old share.new }
{
    match reader {
        Some(reader) => share.put(reader.close()),
        None => unreachable!(),
    }
}

// Reads on to a tuple, where one is left, and tells whether one is.
fn shows_tuple<D: Disk>(disk: &mut D, reader: &mut Reader) -> Result<bool, Stop>
    requires is { IsReader (D.shown disk.old).page_len reader.old }
    ensures gives { OnOk result ((l : Pairs) → GivesPairs (D.shown disk.old) l reader.old → GivesPairs (D.shown disk.new) l reader.new) }
    ensures has { IfOk result (λ b. IsTrue b → HasTuple reader.new) }
    ensures over { IfOk result (λ b. IsFalse b → IsOver reader.new) }
    ensures left { left reader.new ≤ left reader.old }
    ensures ok { OnOk result (Clean NoFile (D.shown disk.old) (D.shown disk.new)) }
    ensures err { IfErr result (Broke Stop.Scratch IsConnectorFile (D.shown disk.old) (D.shown disk.new)) }
    ensures is { IsReader (D.shown disk.old).page_len reader.new }
{
    let head = reader.peek(disk)?;
    Ok(head.is_some())
}

// The same of the reader of a sender.
fn has_tuple<D: Disk>(disk: &mut D, reader: &mut Option<Reader>) -> Result<bool, Stop>
    requires is { OfReader (IsReader (D.shown disk.old).page_len) reader.old }
    ensures gives { OnOk result ((l : Pairs) → OfReader (GivesPairs (D.shown disk.old) l) reader.old → OfReader (GivesPairs (D.shown disk.new) l) reader.new) }
    ensures has { IfOk result (λ b. IsTrue b → OfReader HasTuple reader.new) }
    ensures over { IfOk result (λ b. IsFalse b → OfReader IsOver reader.new) }
    ensures left { left_in reader.new ≤ left_in reader.old }
    ensures ok { OnOk result (Clean NoFile (D.shown disk.old) (D.shown disk.new)) }
    ensures err { IfErr result (Broke Stop.Scratch IsConnectorFile (D.shown disk.old) (D.shown disk.new)) }
    ensures is { OfReader (IsReader (D.shown disk.old).page_len) reader.new }
{
    match reader {
        Some(reader) => shows_tuple(disk, reader),
        None => unreachable!(),
    }
}

// The bits with that of a sender, where it has a tuple.
fn marked(ready: u32, sender: u32, has: bool) -> u32
    requires { sender < 32 }
    ensures set { IsTrue has → bit result sender ≡ 1 }
    ensures unset { IsFalse has → result ≡ ready }
    ensures others { (i : ℕ) → i ≢ sender → bit result i ≡ bit ready i }
{
    if has { ready | 1 << sender } else { ready }
}

// The bits of the senders that have a tuple left. Each of those then has one in its frame.
fn find_ready<D: Disk>(disk: &mut D, readers: &mut [Option<Reader>]) -> Result<u32, Stop>
    requires most { length readers.old ≤ 16 }
    requires are { AreReaders (D.shown disk.old).page_len readers.old }
    ensures gives { OnOk result ((ls : ℕ → Pairs) → GiveAll (D.shown disk.old) readers.old ls → GiveAll (D.shown disk.new) readers.new ls) }
    ensures ready { IfOk result (λ n. (p : ℕ) → IsBit n p → HasAt p readers.new) }
    ensures none { IfOk result (λ n. n ≡ 0 → AllOver readers.new) }
    ensures left { all_left readers.new ≤ all_left readers.old }
    ensures ok { OnOk result (Clean NoFile (D.shown disk.old) (D.shown disk.new)) }
    ensures err { IfErr result (Broke Stop.Scratch IsConnectorFile (D.shown disk.old) (D.shown disk.new)) }
    ensures are { AreReaders (D.shown disk.old).page_len readers.new }
    ensures count { length readers.new ≡ length readers.old }
{
    let mut ready = 0;
    for p in 0..readers.len() as u32 {
        let has = has_tuple(disk, &mut readers[p as usize])?;
        ready = marked(ready, p, has);
    }
    Ok(ready)
}

// Whether no tuple is left in the frame of a sender.
fn is_at_edge(readers: &[Option<Reader>], sender: u32) -> bool
    ensures { IsFalse result → HasAt sender readers.now }
{
    match readers.get(sender as usize) {
        Some(Some(reader)) => reader.edge(),
        _ => true,
    }
}

// The sender whose tuple is next, if any has one.
fn choose<D: Disk, T: Turns>(
    disk: &mut D,
    readers: &mut [Option<Reader>],
    sender: u32,
    turns: &mut T,
) -> Result<Option<u32>, Stop>
    requires most { length readers.old ≤ 16 }
    requires are { AreReaders (D.shown disk.old).page_len readers.old }
    ensures gives { OnOk result ((ls : ℕ → Pairs) → GiveAll (D.shown disk.old) readers.old ls → GiveAll (D.shown disk.new) readers.new ls) }
    ensures some { IfOk result (λ o. IfSome o (λ p. HasAt p readers.new)) }
    ensures none { IfOk result (λ o. IfNone o (AllOver readers.new)) }
    ensures left { all_left readers.new ≤ all_left readers.old }
    ensures ok { OnOk result (Clean NoFile (D.shown disk.old) (D.shown disk.new)) }
    ensures err { IfErr result (Broke Stop.Scratch IsConnectorFile (D.shown disk.old) (D.shown disk.new)) }
    ensures are { AreReaders (D.shown disk.old).page_len readers.new }
    ensures count { length readers.new ≡ length readers.old }
{
    if !is_at_edge(readers, sender) {
        return Ok(Some(sender));
    }
    let ready = find_ready(disk, readers)?;
    if ready == 0 {
        return Ok(None);
    }
    Ok(Some(turns.pick(ready)))
}

// Takes the next tuple of the page in a frame.
fn take_one<D: Disk>(disk: &mut D, reader: &mut Reader, into: &mut Buf) -> Vid
    requires is { IsReader (D.shown disk.old).page_len reader.old }
    requires limit { 13 + into.old.limit ≡ room_of (D.shown disk.old).page_len }
    requires has { HasTuple reader.old }
    ensures took { (l : Pairs) → GivesPairs (D.shown disk.old) l reader.old → LeadsPair result into.new.bytes l (λ rest. GivesPairs (D.shown disk.new) rest reader.new) }
    ensures falls { left reader.new < left reader.old }
    ensures untouched { D.shown disk.new ≡ D.shown disk.old }
    ensures is { IsReader (D.shown disk.old).page_len reader.new }
    ensures within { IsWithin into.new }
    ensures room { SameRoom into.old into.new }
{
    match reader.next(disk, into) {
        Ok(Some(head)) => head.key,
        _ => unreachable!(),
    }
}

// The same of the reader of a sender.
fn take_in<D: Disk>(disk: &mut D, reader: &mut Option<Reader>, into: &mut Buf) -> Vid
    requires is { OfReader (IsReader (D.shown disk.old).page_len) reader.old }
    requires limit { 13 + into.old.limit ≡ room_of (D.shown disk.old).page_len }
    requires has { OfReader HasTuple reader.old }
    ensures took { (l : Pairs) → OfReader (GivesPairs (D.shown disk.old) l) reader.old → LeadsPair result into.new.bytes l (λ rest. OfReader (GivesPairs (D.shown disk.new) rest) reader.new) }
    ensures falls { left_in reader.new < left_in reader.old }
    ensures untouched { D.shown disk.new ≡ D.shown disk.old }
    ensures is { OfReader (IsReader (D.shown disk.old).page_len) reader.new }
    ensures within { IsWithin into.new }
    ensures room { SameRoom into.old into.new }
{
    match reader {
        Some(reader) => take_one(disk, reader, into),
        None => unreachable!(),
    }
}

// Takes the next tuple of a sender that has one in its frame.
fn take_at<D: Disk>(
    disk: &mut D,
    readers: &mut [Option<Reader>],
    sender: u32,
    into: &mut Buf,
) -> Vid
    requires has { HasAt sender readers.old }
    requires are { AreReaders (D.shown disk.old).page_len readers.old }
    requires limit { 13 + into.old.limit ≡ room_of (D.shown disk.old).page_len }
    ensures took { (ls : ℕ → Pairs) → GiveAll (D.shown disk.old) readers.old ls → LeadsPair result into.new.bytes (ls sender) (λ l. GiveAll (D.shown disk.new) readers.new (at sender l ls)) }
    ensures falls { all_left readers.new < all_left readers.old }
    ensures untouched { D.shown disk.new ≡ D.shown disk.old }
    ensures are { AreReaders (D.shown disk.old).page_len readers.new }
    ensures count { length readers.new ≡ length readers.old }
    ensures within { IsWithin into.new }
    ensures room { SameRoom into.old into.new }
{
    take_in(disk, &mut readers[sender as usize], into)
}

// The next pair, and the sender whose it is.
fn next_of<D: Disk, T: Turns>(
    disk: &mut D,
    readers: &mut [Option<Reader>],
    sender: &mut u32,
    turns: &mut T,
    into: &mut Buf,
) -> Result<Option<Vid>, Stop>
    requires most { length readers.old ≤ 16 }
    requires are { AreReaders (D.shown disk.old).page_len readers.old }
    requires limit { 13 + into.old.limit ≡ room_of (D.shown disk.old).page_len }
    ensures some { IfOk result (λ o. IfSome o (λ v. (ls : ℕ → Pairs) → GiveAll (D.shown disk.old) readers.old ls
        → (p : ℕ) × (p < length readers.old) × LeadsPair v into.new.bytes (ls p) (λ l. GiveAll (D.shown disk.new) readers.new (at p l ls)))) }
    ensures none { IfOk result (λ o. IfNone o ((ls : ℕ → Pairs) → GiveAll (D.shown disk.old) readers.old ls → (p : ℕ) → p < length readers.old → ls p ≡ [])) }
    ensures falls { IfOk result (λ o. OnSome o (all_left readers.new < all_left readers.old)) }
    ensures left { all_left readers.new ≤ all_left readers.old }
    ensures ok { OnOk result (Clean NoFile (D.shown disk.old) (D.shown disk.new)) }
    ensures err { IfErr result (Broke Stop.Scratch IsConnectorFile (D.shown disk.old) (D.shown disk.new)) }
    ensures are { AreReaders (D.shown disk.old).page_len readers.new }
    ensures count { length readers.new ≡ length readers.old }
    ensures within { IfOk result (λ o. OnSome o (IsWithin into.new)) }
    ensures room { SameRoom into.old into.new }
{
    let Some(chosen) = choose(disk, readers, *sender, turns)? else {
        return Ok(None);
    };
    *sender = chosen;
    let vid = take_at(disk, readers, chosen, into);
    Ok(Some(vid))
}
