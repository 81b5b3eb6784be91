// Requests to the partitions of their vids.
//
// Receiver q has the file 160 + q. It is a stream of the requests to vids of partition q, in the order in which they were put, each a tuple with the tag of a request.
ghost use Rattle.std.specs.Prelude.{◌≡◌, ◌≤◌, ◌<◌, ◌++◌, [], ◌∷◌, true, length, OnOk, IfErr};
ghost use Rattle.px_core.specs.Shown.{Clean, Broke};
ghost use Rattle.px_meaning.specs.Graph.{pair_size, room_of};
ghost use Rattle.px_meaning.specs.Merge.{Pairs};
ghost use Rattle.px_connectors.specs.Asking.{IsRequestFile, receivers, SameRequests, Asked, AskedOf, pages_of};

use crate::writers::PartWriters;
use px_core::{Disk, Stop, Vid};
use px_frames::Share;
use px_pages::tags;
use std::marker::Model;

// The file of receiver 0.
const FIRST_FILE: u32 = 160;

/// Appends each request to the file of its receiver, the partition of its vid, ungrouped.
/// The only error is `Stop::Scratch`, where the disk failed; after it nothing is said of the requests until the next `start`.
#[derive(Drop)]
pub struct Requests {
    // The frames that the writers have not taken.
    share: Share,
    writers: PartWriters,
}

impl Model for Requests {
    ghost use Rattle.std.specs.Prelude.{◌≡◌, ◌≤◌, ◌+◌, length};
    ghost use Rattle.px_connectors.specs.Asking.{RequestsView};
    ghost use Rattle.px_connectors.specs.Writers.{parts_in};

    ghost Value = { RequestsView };

    ghost view = { λ r. record { frame_len = r.share.frame_len; size = r.share.size; frames = length r.share.frames + parts_in r.writers; writers = r.writers } };

    ghost invariant = { λ r. (r.writers.first ≡ 160) × (r.writers.frame_len ≡ r.share.frame_len) × (length r.share.frames + parts_in r.writers ≤ r.share.size) };
}

impl Requests {
    /// Requests to so many partitions, to be started. Each receiver takes a frame of the share.
    pub fn open(share: Share, partitions: u32) -> Requests
        requires some { 1 ≤ partitions }
        requires most { partitions ≤ 16 }
        requires frames { partitions ≤ length share.frames }
        ensures receivers { receivers result ≡ partitions }
        ensures frame_len { result.frame_len ≡ share.frame_len }
        ensures size { result.size ≡ share.size }
        ensures frames { result.frames ≡ length share.frames }
    {
        let mut share = share;
        let writers = PartWriters::open(&mut share, partitions, FIRST_FILE);
        Requests { share, writers }
    }

    /// The share, with all its frames.
    pub fn close(self) -> Share
        ensures frame_len { result.frame_len ≡ self.frame_len }
        ensures size { result.size ≡ self.size }
        ensures frames { length result.frames ≡ self.frames }
    {
        let Requests { mut share, writers } = self;
        writers.close(&mut share);
        share
    }

    /// Begins a superstep: the files of all receivers are cleared, and nothing is requested.
    pub fn start<D: Disk>(&mut self, disk: &mut D) -> Result<(), Stop>
        requires { self.old.frame_len ≡ (D.shown disk.old).page_len }
        ensures asked { OnOk result ((D.shown disk.old).tells ≡ true → Asked (D.shown disk.new) self.new []) }
        ensures ok { OnOk result (Clean IsRequestFile (D.shown disk.old) (D.shown disk.new)) }
        ensures err { IfErr result (Broke Stop.Scratch IsRequestFile (D.shown disk.old) (D.shown disk.new)) }
        ensures stays { SameRequests self.old self.new }
    {
        self.writers.start(disk)?;
        Ok(())
    }

    /// Takes a request.
    pub fn put<D: Disk>(&mut self, disk: &mut D, vid: Vid, verdict: &[u8]) -> Result<(), Stop>
        requires frame_len { self.old.frame_len ≡ (D.shown disk.old).page_len }
        requires room { pair_size verdict.now ≤ room_of self.old.frame_len }
        ensures asked { OnOk result ((l : Pairs) → Asked (D.shown disk.old) self.old l → Asked (D.shown disk.new) self.new (l ++ (vid, verdict.now) ∷ [])) }
        ensures ok { OnOk result (Clean IsRequestFile (D.shown disk.old) (D.shown disk.new)) }
        ensures err { IfErr result (Broke Stop.Scratch IsRequestFile (D.shown disk.old) (D.shown disk.new)) }
        ensures stays { SameRequests self.old self.new }
    {
        self.writers.put(disk, vid, tags::REQUEST, verdict)?;
        Ok(())
    }

    /// Ends a superstep's requests: those to each receiver stand in its file.
    pub fn finish<D: Disk>(&mut self, disk: &mut D) -> Result<(), Stop>
        requires { self.old.frame_len ≡ (D.shown disk.old).page_len }
        ensures holds { OnOk result ((l : Pairs) → Asked (D.shown disk.old) self.old l → AskedOf (D.shown disk.new) self.new l) }
        ensures ok { OnOk result (Clean IsRequestFile (D.shown disk.old) (D.shown disk.new)) }
        ensures err { IfErr result (Broke Stop.Scratch IsRequestFile (D.shown disk.old) (D.shown disk.new)) }
        ensures stays { SameRequests self.old self.new }
    {
        self.writers.finish(disk)?;
        Ok(())
    }

    /// The pages of a receiver's file, as it was finished last.
    pub fn pages(&self, receiver: u32) -> u64
        requires { receiver < receivers self.now }
        ensures { result ≡ pages_of self.now receiver }
    {
        self.writers.pages()[receiver as usize]
    }
}
