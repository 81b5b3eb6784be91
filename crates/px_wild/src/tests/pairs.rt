// Pairs that are grouped, sent from senders to receivers, and asked for.
ghost use Rattle.std.specs.Prelude.{◌≡◌, ◌≤◌, ◌<◌, ◌+◌, length, IsTrue, OnOk, IfOk};
ghost use Rattle.px_sort_group.specs.Sorted.{takes, gives};

use super::Ended;
use px_connectors::{Connector, Partitioning, Requests};
use px_core::{Disk, HighTurns, Stop, Turns};
use px_frames::{Bank, Buf, Frame, Share};
use px_program::Group;
use px_programs::Lesser;
use px_sort_group::SortGroup;
use px_stream::Writer;
use std::alloc::{AllocError, Global};

// A group over six frames and 32 entries.
fn open_group(alloc: Global) -> Result<SortGroup, AllocError>
    ensures frame_len { IfOk result (λ g. g.held.frame_len ≡ 256) }
    ensures first { IfOk result (λ g. g.first ≡ 2) }
    ensures second { IfOk result (λ g. g.second ≡ 3) }
    ensures open { IfOk result (λ g. IsTrue (takes g.stage)) }
{
    let mut bank = Bank::open(alloc, 256, &[6], 32)?;
    let share = bank.lend(0);
    let table = bank.lend_table();
    Ok(SortGroup::open(share, table, 2, 3))
}

// A group takes so many pairs.
fn add_pairs<D: Disk>(disk: &mut D, group: &mut SortGroup, pairs: u64) -> Result<(), Stop>
    requires disk { (D.shown disk.old).page_len ≡ 256 }
    requires group { group.old.held.frame_len ≡ 256 }
    requires open { IsTrue (takes group.old.stage) }
    ensures disk { OnOk result ((D.shown disk.new).page_len ≡ 256) }
    ensures group { OnOk result (group.new.held.frame_len ≡ 256) }
    ensures open { OnOk result (IsTrue (takes group.new.stage)) }
{
    for i in 0..pairs {
        group.add(disk, &Lesser, i.wrapping_mul(37) % 101, &i.to_be_bytes())?;
    }
    Ok(())
}

// The folds that a group gives, at most so many.
fn take_folds<D: Disk>(
    disk: &mut D,
    group: &mut SortGroup,
    into: &mut Buf,
    most: u64,
) -> Result<(), Stop>
    requires disk { (D.shown disk.old).page_len ≡ 256 }
    requires group { group.old.held.frame_len ≡ 256 }
    requires sealed { IsTrue (gives group.old.stage) }
    requires limit { into.old.limit ≡ 99 }
{
    for _ in 0..most {
        if group.next(disk, &Lesser, into)?.is_none() {
            return Ok(());
        }
    }
    Ok(())
}

// Pairs of which most are spilled to runs.
pub fn call_group<D: Disk>(alloc: Global, disk: &mut D) -> Result<(), Ended>
    requires { (D.shown disk.old).page_len ≡ 256 }
{
    let mut group = open_group(alloc)?;
    let mut into = Buf::over(Frame::new(alloc, 256)?, 99);
    add_pairs(disk, &mut group, 300)?;
    group.seal(disk, &Lesser)?;
    take_folds(disk, &mut group, &mut into, 1000)?;
    Ok(())
}

// A share of so many frames of 256 bytes.
fn share_of(alloc: Global, frames: u32) -> Result<Share, AllocError>
    requires { frames ≤ 16 }
    ensures frames { IfOk result (λ s. length s.frames ≡ frames) }
    ensures frame_len { IfOk result (λ s. s.frame_len ≡ 256) }
{
    let mut bank = Bank::open(alloc, 256, &[frames], 0)?;
    Ok(bank.lend(0))
}

// A sender puts numbers to so many vids.
fn send<C: Connector, D: Disk>(
    disk: &mut D,
    connector: &mut C,
    sender: u32,
    vids: u64,
) -> Result<(), Stop>
    requires sender { sender < (C.view connector.old).parts }
    requires frame_len { (C.view connector.old).frame_len ≡ 256 }
    requires page_len { (D.shown disk.old).page_len ≡ 256 }
    ensures page_len { (D.shown disk.new).page_len ≡ 256 }
    ensures parts { (C.view connector.new).parts ≡ (C.view connector.old).parts }
    ensures frame_len { (C.view connector.new).frame_len ≡ 256 }
{
    connector.begin(disk, sender)?;
    for vid in 0..vids {
        connector.put(disk, vid, &vid.to_be_bytes())?;
    }
    connector.finish(disk)
}

// The pairs that an open receiver is given, at most so many.
fn take_pairs<C: Connector, D: Disk, T: Turns>(
    disk: &mut D,
    connector: &mut C,
    turns: &mut T,
    into: &mut Buf,
    most: u64,
) -> Result<(), Stop>
    requires frame_len { (C.view connector.old).frame_len ≡ 256 }
    requires page_len { (D.shown disk.old).page_len ≡ 256 }
    requires limit { into.old.limit ≡ 99 }
    ensures frame_len { OnOk result ((C.view connector.new).frame_len ≡ 256) }
    ensures parts { OnOk result ((C.view connector.new).parts ≡ (C.view connector.old).parts) }
    ensures page_len { OnOk result ((D.shown disk.new).page_len ≡ 256) }
    ensures limit { OnOk result (into.new.limit ≡ 99) }
{
    for _ in 0..most {
        if connector.next(disk, turns, into)?.is_none() {
            return Ok(());
        }
    }
    Ok(())
}

// Two senders, two receivers: one is given its pairs, and those of the other are gathered.
pub fn call_connector<D: Disk>(alloc: Global, disk: &mut D) -> Result<(), Ended>
    requires { (D.shown disk.old).page_len ≡ 256 }
{
    let mut connector = Partitioning::open(share_of(alloc, 2)?, 2);
    let mut into = Buf::over(Frame::new(alloc, 256)?, 99);
    let mut turns = HighTurns::new();
    send(disk, &mut connector, 0, 40)?;
    send(disk, &mut connector, 1, 40)?;
    connector.receive(disk, 0)?;
    take_pairs(disk, &mut connector, &mut turns, &mut into, 1000)?;
    connector.receive(disk, 1)?;
    let mut group = open_group(alloc)?;
    let mut to = Writer::new(Frame::new(alloc, 256)?, 9);
    to.start(disk)?;
    connector.gather(disk, &mut turns, &Lesser, &mut group, &mut to, &mut into)?;
    Ok(())
}

// So many requests.
fn ask<D: Disk>(disk: &mut D, requests: &mut Requests, vids: u64) -> Result<(), Stop>
    requires frame_len { requests.old.frame_len ≡ 256 }
    requires page_len { (D.shown disk.old).page_len ≡ 256 }
{
    requests.start(disk)?;
    for vid in 0..vids {
        requests.put(disk, vid, &vid.to_be_bytes())?;
    }
    requests.finish(disk)?;
    Ok(())
}

// Requests to three partitions.
pub fn call_requests<D: Disk>(alloc: Global, disk: &mut D) -> Result<(), Ended>
    requires { (D.shown disk.old).page_len ≡ 256 }
{
    let mut requests = Requests::open(share_of(alloc, 3)?, 3);
    ask(disk, &mut requests, 50)?;
    Ok(())
}
