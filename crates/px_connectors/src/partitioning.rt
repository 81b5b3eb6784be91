// The plain connector: a file from each sender to each receiver.
//
// From sender p to receiver q goes the file 256 + 16p + q. It is a stream of the pairs that the sender put to vids of partition q, in that order, each a tuple with the tag of a message.
ghost use Rattle.std.specs.Prelude.{◌≡◌, ◌≢◌, ◌≤◌, ◌<◌, ◌+◌, ◌-◌, ◌*◌, ◌^◌, ◌++◌, [], ◌∷◌, ℕ, true, false, length, min, IsTrue, OnOk, IfOk, IfErr, IfSome, IfNone, OnSome};
ghost use Rattle.px_core.specs.Parts.{to_part, all_of};
ghost use Rattle.px_core.specs.Shown.{Clean, Broke, NoFile};
ghost use Rattle.px_frames.specs.Buffer.{SameRoom, IsWithin};
ghost use Rattle.px_frames.specs.Shares.{SamePlaces};
ghost use Rattle.px_meaning.specs.Graph.{pair_size, room_of};
ghost use Rattle.px_meaning.specs.Merge.{Pairs, AllValid, grouped};
ghost use Rattle.px_meaning.specs.Step.{has_wide_fold};
ghost use Rattle.px_program.specs.Groups.{room_in, IsOwn, StopsGrouping, LeadsPair};
ghost use Rattle.px_store.specs.Joins.{message_tuples};
ghost use Rattle.px_stream.specs.Stream.{Took, Has};
ghost use Rattle.px_connectors.specs.Files.{OwnOr, OwnOrConnector};
ghost use Rattle.px_connectors.specs.Frames.{sends_stays, has_sent_stays, has_sent_tells, receives_stays, sends_sender};
ghost use Rattle.px_connectors.specs.Sides.{PartitioningView, view_of, OnOneSide, AreSending, Sends, HasSent, Receives, left_to_give};
ghost use Rattle.px_connectors.specs.Views.{IsSenderFile, IsConnectorFile, AllUpTo, at};
ghost use Rattle.px_connectors.specs.Writers.{AreWriters, parts_in};

use crate::Connector;
use crate::gathering::{give_folds, take_received};
use crate::readers::{PartReaders, first_file};
use crate::writers::{MOST_PARTS, PartWriters};
use px_core::{Disk, Stop, Turns, Vid};
use px_frames::{Buf, Share};
use px_pages::tags;
use px_program::{Group, Merge};
use px_stream::Writer;
use std::marker::Model;

/// The connector that keeps what each sender puts to each receiver in a file, and folds nothing. A receiver is given whole frames of its senders by turns, and what each put in the order in which it put it.
#[derive(Drop)]
pub struct Partitioning {
    // The frames that neither writers nor readers have taken.
    share: Share,
    parts: u32,
    // While it sends.
    writers: Option<PartWriters>,
    // While it receives.
    readers: Option<PartReaders>,
    // The sender that was begun last.
    sender: u32,
    // How many pages each file of each sender had when that sender was finished last.
    pages: [[u64; MOST_PARTS]; MOST_PARTS],
}

impl Model for Partitioning {
    ghost use Rattle.std.specs.Prelude.{◌≡◌, ◌≤◌, ◌<◌, length, ◌+◌, ◌*◌, IfSome};
    ghost use Rattle.px_connectors.specs.Sides.{PartitioningView, OnOneSide};

    ghost Value = { PartitioningView };

    ghost view = { λ c. record {
      size = c.share.size;
      frames = length c.share.frames + c.parts;
      frame_len = c.share.frame_len;
      parts = c.parts;
      writers = c.writers;
      readers = c.readers;
      sender = c.sender;
      pages = c.pages;
    } };

    ghost invariant = { λ c. (c.sender < c.parts) × (c.parts ≤ 16) × OnOneSide c.parts c.share.frame_len c.writers c.readers × IfSome c.writers (λ w. w.first ≡ 256 + 16 * c.sender) × (length c.pages ≡ 16) × (length c.share.frames + c.parts ≤ c.share.size) };
}

// Writers of these files, with the frames that writers or readers had.
fn to_writers(
    share: &mut Share,
    parts: u32,
    writers: Option<PartWriters>,
    readers: Option<PartReaders>,
    first: u32,
) -> PartWriters
    requires some { 1 ≤ parts }
    requires most { parts ≤ 16 }
    requires side { OnOneSide parts share.old.frame_len writers readers }
    requires room { length share.old.frames + parts ≤ share.old.size }
    requires first { first + 16 ≤ 2 ^ 31 }
    ensures are { AreSending parts share.old.frame_len result }
    ensures first { result.first ≡ first }
    ensures frames { length share.new.frames ≡ length share.old.frames }
    ensures share { SamePlaces share.old share.new }
{
    match (writers, readers) {
        (Some(mut writers), _) => {
            writers.turn_to(first);
            writers
        }
        (None, Some(readers)) => {
            readers.close(share);
            PartWriters::open(share, parts, first)
        }
        (None, None) => unreachable!(),
    }
}

// All frames that writers or readers had go back into the share.
fn take_back(
    share: &mut Share,
    parts: u32,
    writers: Option<PartWriters>,
    readers: Option<PartReaders>,
)
    requires side { OnOneSide parts share.old.frame_len writers readers }
    requires room { length share.old.frames + parts ≤ share.old.size }
    ensures frames { length share.new.frames ≡ length share.old.frames + parts }
    ensures share { SamePlaces share.old share.new }
{
    match (writers, readers) {
        (Some(writers), _) => writers.close(share),
        (None, Some(readers)) => readers.close(share),
        (None, None) => unreachable!(),
    }
}

impl Connector for Partitioning {
    ghost view = { view_of };

    ghost sending = { Sends };

    ghost sent = { HasSent };

    ghost receives = { Receives };

    ghost left = { λ c. left_to_give c.readers };

    ghost folding = { false };

    fn open(share: Share, partitions: u32) -> Partitioning {
        let mut share = share;
        let writers = PartWriters::open(&mut share, partitions, first_file(0));
        Partitioning {
            share,
            parts: partitions,
            writers: Some(writers),
            readers: None,
            sender: 0,
            pages: [[0; MOST_PARTS]; MOST_PARTS],
        }
    }

    fn close(self) -> Share {
        let Partitioning {
            mut share,
            parts,
            writers,
            readers,
            ..
        } = self;
        take_back(&mut share, parts, writers, readers);
        share
    }

    fn begin<D: Disk>(&mut self, disk: &mut D, sender: u32) -> Result<(), Stop> {
        let (writers, readers) = (self.writers.take(), self.readers.take());
        let first = first_file(sender);
        let mut writers = to_writers(&mut self.share, self.parts, writers, readers, first);
        let started = writers.start(disk);
        self.sender = sender;
        self.writers = Some(writers);
        started?;
        Ok(())
    }

    fn put<D: Disk>(&mut self, disk: &mut D, vid: Vid, payload: &[u8]) -> Result<(), Stop> {
        let Some(writers) = &mut self.writers else {
            return Ok(());
        };
        writers.put(disk, vid, tags::MESSAGE, payload)?;
        Ok(())
    }

    fn finish<D: Disk>(&mut self, disk: &mut D) -> Result<(), Stop> {
        let Some(writers) = &mut self.writers else {
            return Ok(());
        };
        writers.finish(disk)?;
        self.pages[self.sender as usize] = writers.pages();
        Ok(())
    }

    fn receive<D: Disk>(&mut self, _disk: &mut D, receiver: u32) -> Result<(), Stop> {
        let (writers, readers) = (self.writers.take(), self.readers.take());
        take_back(&mut self.share, self.parts, writers, readers);
        let readers = PartReaders::open(&mut self.share, self.parts, receiver, &self.pages);
        self.readers = Some(readers);
        Ok(())
    }

    fn next<D: Disk, T: Turns>(
        &mut self,
        disk: &mut D,
        turns: &mut T,
        into: &mut Buf,
    ) -> Result<Option<Vid>, Stop> {
        let Some(readers) = &mut self.readers else {
            return Ok(None);
        };
        let vid = readers.next(disk, turns, into)?;
        Ok(vid)
    }

    fn gather<D: Disk, T: Turns, M: Merge, G: Group>(
        &mut self,
        disk: &mut D,
        turns: &mut T,
        merge: &M,
        group: &mut G,
        to: &mut Writer,
        into: &mut Buf,
    ) -> Result<u64, Stop> {
        let Some(readers) = &mut self.readers else {
            return Ok(0);
        };
        take_received(disk, turns, merge, group, readers, into)?;
        let count = give_folds(disk, merge, group, to, into)?;
        Ok(count)
    }

    ghost sending_stays = { sends_stays };

    ghost sent_stays = { has_sent_stays };

    ghost sent_tells = { has_sent_tells };

    ghost receives_stays = { receives_stays };

    ghost sender_is = { sends_sender };
}
