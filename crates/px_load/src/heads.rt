// The files of the partitions are read side by side, the least vid first.
ghost use Rattle.std.specs.Prelude.{◌≡◌, ◌≤◌, ◌<◌, ◌+◌, ◌⊎◌, [], ◌∷◌, ℕ, List, length, map, true, None, Some, IsTrue, IsFalse, OnOk, IfOk, IfErr, IfSome, IfNone, slice_get, slice_index_or};
ghost use Rattle.px_core.specs.Shown.{Shown, Clean, Broke, Only, NoFile};
ghost use Rattle.px_frames.specs.Buffer as buffer;
ghost use Rattle.px_frames.specs.Shares.{SamePlaces};
ghost use Rattle.px_meaning.specs.Graph.{Graph, room_of};
ghost use Rattle.px_store.specs.Desks.{SameRoom};
ghost use Rattle.px_core.specs.Parts.{to_part};
ghost use Rattle.px_stream.specs.Counts.{left};
ghost use Rattle.px_stream.specs.Stream.{ToGive};
ghost use Rattle.px_load.specs.Dumping.{IsDumpFile};
ghost use Rattle.px_load.specs.Frames.{StillReader};
ghost use Rattle.px_load.specs.Heads.{OfReader, ReadsPart, GivesVertices, IsLooked, GiveParts, AreLooked, heads_of, first_vid, AllOver, NoneBefore, Begins, left_in, all_left, AreReaders};
ghost use Rattle.px_load.specs.Scanning.{Spelled, HoldFiles};

use crate::parting::FIRST_PART;
use arrayvec::ArrayVec;
use px_connectors::MOST_PARTS;
use px_core::{Disk, Stop, Vid};
use px_frames::{Buf, Share};
use px_record::VertexBuf;
use px_stream::Reader;

/// A partition's file that is read, and the vid of its next vertex, where it was looked at and has one.
#[derive(Default, Drop)]
pub(crate) struct PartReader {
    pub(crate) reader: Option<Reader>,
    pub(crate) head: Option<Vid>,
}

/// One for each partition.
pub(crate) type PartReaders = ArrayVec<PartReader, MOST_PARTS>;

// The vid of the next vertex of a file, where it has one.
fn next_vid<D: Disk>(disk: &mut D, reader: &mut Reader) -> Result<Option<Vid>, Stop>
    requires page_len { reader.old.page_len ≡ (D.shown disk.old).page_len }
    ensures gives { OnOk result ((room : ℕ) (l : Graph) → Spelled room (ToGive (D.shown disk.old) reader.old) l → Spelled room (ToGive (D.shown disk.new) reader.new) l) }
    ensures vid { IfOk result (λ o. (room : ℕ) (l : Graph) → Spelled room (ToGive (D.shown disk.old) reader.old) l → o ≡ first_vid l) }
    ensures left { left reader.new ≤ left reader.old }
    ensures ok { OnOk result (Clean NoFile (D.shown disk.old) (D.shown disk.new)) }
    ensures err { IfErr result (Broke Stop.Scratch (Only reader.old.file) (D.shown disk.old) (D.shown disk.new)) }
    ensures stays { StillReader reader.old reader.new }
{
    match reader.peek(disk)? {
        Some(head) => Ok(Some(head.key)),
        None => Ok(None),
    }
}

// Makes the record the next vertex of a file. It is false at the end of the file.
fn take_next<D: Disk>(
    disk: &mut D,
    reader: &mut Reader,
    body: &mut Buf,
    v: &mut VertexBuf,
) -> Result<bool, Stop>
    requires page_len { reader.old.page_len ≡ (D.shown disk.old).page_len }
    requires limit { room_of reader.old.page_len ≤ 13 + body.old.limit }
    ensures over { IfOk result (λ more. IsFalse more → (l : Graph) → Spelled v.old.room (ToGive (D.shown disk.old) reader.old) l → l ≡ []) }
    ensures took { IfOk result (λ more. IsTrue more → (l : Graph) → Spelled v.old.room (ToGive (D.shown disk.old) reader.old) l → Begins l v.new.vid v.new.vertex (Spelled v.old.room (ToGive (D.shown disk.new) reader.new))) }
    ensures falls { IfOk result (λ more. IsTrue more → left reader.new < left reader.old) }
    ensures ok { OnOk result (Clean NoFile (D.shown disk.old) (D.shown disk.new)) }
    ensures err { IfErr result (Broke Stop.Scratch (Only reader.old.file) (D.shown disk.old) (D.shown disk.new)) }
    ensures stays { StillReader reader.old reader.new }
    ensures body { buffer.SameRoom body.old body.new }
    ensures vertex { SameRoom v.old v.new }
{
    let Some(head) = reader.next(disk, body)? else {
        return Ok(false);
    };
    // What a scan put is a vertex. Other bytes leave the record as it was.
    let _ = v.load(head.key, body.bytes());
    Ok(true)
}

impl PartReader {
    // Looks at the next vertex.
    fn look<D: Disk>(&mut self, disk: &mut D) -> Result<(), Stop>
        requires page_len { IfSome self.old.reader (λ r. r.page_len ≡ (D.shown disk.old).page_len) }
        ensures looked { OnOk result ((room : ℕ) (l : Graph) → GivesVertices (D.shown disk.old) room self.old l → IsLooked (D.shown disk.new) room self.new l) }
        ensures ok { OnOk result (Clean NoFile (D.shown disk.old) (D.shown disk.new)) }
        ensures err { IfErr result (λ e. (file len : ℕ) → OfReader (ReadsPart file len) self.old.reader → Broke Stop.Scratch (Only file) (D.shown disk.old) (D.shown disk.new) e) }
        ensures stays { (file len : ℕ) → OfReader (ReadsPart file len) self.old.reader → OfReader (ReadsPart file len) self.new.reader }
    {
        let Some(reader) = &mut self.reader else {
            return Ok(());
        };
        self.head = next_vid(disk, reader)?;
        Ok(())
    }

    // Makes the record the next vertex, and looks at the one behind it. It is false at the end of the file.
    fn take<D: Disk>(
        &mut self,
        disk: &mut D,
        body: &mut Buf,
        v: &mut VertexBuf,
    ) -> Result<bool, Stop>
        requires page_len { IfSome self.old.reader (λ r. r.page_len ≡ (D.shown disk.old).page_len) }
        requires limit { 13 + body.old.limit ≡ room_of (D.shown disk.old).page_len }
        ensures over { IfOk result (λ more. IsFalse more → (l : Graph) → IsLooked (D.shown disk.old) v.old.room self.old l → l ≡ []) }
        ensures took { IfOk result (λ more. IsTrue more → (l : Graph) → IsLooked (D.shown disk.old) v.old.room self.old l → Begins l v.new.vid v.new.vertex (IsLooked (D.shown disk.new) v.old.room self.new)) }
        ensures falls { IfOk result (λ more. IsTrue more → left_in self.new.reader < left_in self.old.reader) }
        ensures ok { OnOk result (Clean NoFile (D.shown disk.old) (D.shown disk.new)) }
        ensures err { IfErr result (λ e. (file len : ℕ) → OfReader (ReadsPart file len) self.old.reader → Broke Stop.Scratch (Only file) (D.shown disk.old) (D.shown disk.new) e) }
        ensures stays { (file len : ℕ) → OfReader (ReadsPart file len) self.old.reader → OfReader (ReadsPart file len) self.new.reader }
        ensures body { buffer.SameRoom body.old body.new }
        ensures vertex { SameRoom v.old v.new }
    {
        let Some(reader) = &mut self.reader else {
            return Ok(false);
        };
        if !take_next(disk, reader, body, v)? {
            return Ok(false);
        }
        self.head = next_vid(disk, reader)?;
        Ok(true)
    }
}

// Puts the frame of a reader back into the share.
fn give_back(share: &mut Share, reader: Option<Reader>)
    requires some { OfReader (λ r. r.page_len ≡ share.old.frame_len) reader }
    requires room { length share.old.frames < share.old.size }
    ensures len { length share.new.frames ≡ length share.old.frames + 1 }
    ensures stays { SamePlaces share.old share.new }
{
    match reader {
        Some(reader) => share.put(reader.close()),
        None => unreachable!(),
    }
}

// The vid, and its place, of the one of two heads that has the lesser vid, the one before at a tie.
fn better(best: Option<(u32, Vid)>, i: u32, head: Option<Vid>) -> Option<(u32, Vid)>
    ensures over { IfNone result (head ≡ None) }
    ensures before { IfNone result (best ≡ None) }
    ensures first { IfSome result (λ b. IfSome head (λ v. b.1 ≤ v)) }
    ensures lower { IfSome result (λ b. IfSome best (λ a. b.1 ≤ a.1)) }
    ensures chosen { IfSome result (λ b. (result ≡ best) ⊎ ((b.0 ≡ i) × (head ≡ Some b.1))) }
{
    match (head, best) {
        (None, _) => best,
        (Some(vid), Some((_, least))) if least <= vid => best,
        (Some(vid), _) => Some((i, vid)),
    }
}

/// The place of the first that has the least vid of all, or `None` where each has come to its end.
pub(crate) fn least(readers: &[PartReader]) -> Option<(u32, Vid)>
    requires { length readers.now ≤ 16 }
    ensures none { IfNone result (AllOver (heads_of readers.now)) }
    ensures at { IfSome result (λ b. slice_index_or (heads_of readers.now) b.0 None ≡ Some b.1) }
    ensures least { IfSome result (λ b. NoneBefore b.1 (heads_of readers.now)) }
{
    let mut best = None;
    for i in 0..readers.len() as u32 {
        best = better(best, i, readers[i as usize].head);
    }
    best
}

/// Opens the file of each partition, of which the number of pages is given. Each takes a frame of the share.
pub(crate) fn open_all(share: &mut Share, pages: &[u64; MOST_PARTS], parts: u32) -> PartReaders
    requires most { parts ≤ 16 }
    requires frames { parts ≤ length share.old.frames }
    ensures parts { length result.items ≡ parts }
    ensures gives { (s : Shown) (room : ℕ) (g : Graph) → HoldFiles s room parts parts pages.now g → GiveParts s room result.items g }
    ensures are { AreReaders share.old.frame_len result.items }
    ensures frames { length share.new.frames + parts ≡ length share.old.frames }
    ensures within { length share.old.frames ≤ share.old.size }
    ensures share { SamePlaces share.old share.new }
{
    let _places = share.size();
    let mut readers = ArrayVec::new();
    for q in 0..parts {
        let mut reader = Reader::new(share.take(), FIRST_PART + q);
        reader.start(pages[q as usize]);
        readers.push(PartReader {
            reader: Some(reader),
            head: None,
        });
    }
    readers
}

/// All frames go back into the share.
pub(crate) fn close_all(readers: PartReaders, share: &mut Share)
    requires are { AreReaders share.old.frame_len readers.items }
    requires room { length share.old.frames + length readers.items ≤ share.old.size }
    ensures frames { length share.new.frames ≡ length share.old.frames + length readers.items }
    ensures share { SamePlaces share.old share.new }
{
    let mut readers = readers;
    while let Some(part) = readers.pop() {
        give_back(share, part.reader);
    }
}

/// Looks at the first vertex of each file.
pub(crate) fn look_all<D: Disk>(disk: &mut D, readers: &mut [PartReader]) -> Result<(), Stop>
    requires are { AreReaders (D.shown disk.old).page_len readers.old }
    requires most { length readers.old ≤ 16 }
    ensures looked { OnOk result ((room : ℕ) (g : Graph) → GiveParts (D.shown disk.old) room readers.old g → AreLooked (D.shown disk.new) room readers.new g) }
    ensures ok { OnOk result (Clean NoFile (D.shown disk.old) (D.shown disk.new)) }
    ensures err { IfErr result (Broke Stop.Scratch IsDumpFile (D.shown disk.old) (D.shown disk.new)) }
    ensures are { AreReaders (D.shown disk.old).page_len readers.new }
    ensures count { length readers.new ≡ length readers.old }
{
    for q in 0..readers.len() as u32 {
        readers[q as usize].look(disk)?;
    }
    Ok(())
}

/// Makes the record the next vertex of one of the files. It is false at the end of that file.
pub(crate) fn take_at<D: Disk>(
    disk: &mut D,
    readers: &mut [PartReader],
    q: u32,
    body: &mut Buf,
    v: &mut VertexBuf,
) -> Result<bool, Stop>
    requires at { q < length readers.old }
    requires most { length readers.old ≤ 16 }
    requires are { AreReaders (D.shown disk.old).page_len readers.old }
    requires limit { 13 + body.old.limit ≡ room_of (D.shown disk.old).page_len }
    ensures over { IfOk result (λ more. IsFalse more → (g : Graph) → AreLooked (D.shown disk.old) v.old.room readers.old g → to_part (length readers.old) q g ≡ []) }
    ensures took { IfOk result (λ more. IsTrue more → (g : Graph) → AreLooked (D.shown disk.old) v.old.room readers.old g
        → Begins (to_part (length readers.old) q g) v.new.vid v.new.vertex (λ rest. (k : Graph) → to_part (length readers.old) q k ≡ rest → ((i : ℕ) → (i ≡ q → ⊥) → to_part (length readers.old) i k ≡ to_part (length readers.old) i g)
        → AreLooked (D.shown disk.new) v.old.room readers.new k)) }
    ensures falls { IfOk result (λ more. IsTrue more → all_left readers.new < all_left readers.old) }
    ensures ok { OnOk result (Clean NoFile (D.shown disk.old) (D.shown disk.new)) }
    ensures err { IfErr result (Broke Stop.Scratch IsDumpFile (D.shown disk.old) (D.shown disk.new)) }
    ensures are { AreReaders (D.shown disk.old).page_len readers.new }
    ensures count { length readers.new ≡ length readers.old }
    ensures body { buffer.SameRoom body.old body.new }
    ensures vertex { SameRoom v.old v.new }
{
    let more = readers[q as usize].take(disk, body, v)?;
    Ok(more)
}
