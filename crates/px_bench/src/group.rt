// Pairs are grouped by their vids.
ghost use Rattle.std.specs.Prelude.{◌≡◌, ◌≤◌, ◌+◌, IsTrue, OnOk, IfOk};
ghost use Rattle.px_program.specs.Groups.{room_in};

use crate::tally::{Tally, number};
use anyhow::Result;
use px_core::{Disk, Stop};
use px_frames::{Bank, Buf, Frame};
use px_pages::room;
use px_program::Group;
use px_programs::Lesser;
use std::alloc::{AllocError, Global};

/// The bytes of a page.
const PAGE: u32 = 262_144;

/// The numbers of the two files.
const FIRST: u32 = 2;

const SECOND: u32 = 3;

/// The frames of the group and the entries of its table, which together have the bytes of 24 frames.
const FRAMES: u32 = 18;

const ENTRIES: u32 = 98_304;

/// A number to spread pairs over vids.
const SPREAD: u64 = 0x9E37_79B9_7F4A_7C15;

// Pair number i, of so many vids.
fn pair_of(i: u64, vids: u64) -> (u64, u64) {
    let mixed = i.wrapping_mul(SPREAD);
    ((mixed >> 32) % vids.max(1), (mixed >> 11) & 0xFFFF_FFFF)
}

// Puts so many pairs into a group.
fn add<D: Disk, G: Group>(group: &mut G, disk: &mut D, count: u64, vids: u64) -> Result<(), Stop>
    requires page_len { (G.made group.old).frame_len ≡ (D.shown disk.old).page_len }
    requires open { IsTrue (G.is_open group.old) }
    requires room { 21 ≤ room_in (G.made group.old) }
    ensures open { OnOk result (IsTrue (G.is_open group.new)) }
    ensures disk { OnOk result ((D.shown disk.new).page_len ≡ (D.shown disk.old).page_len) }
    ensures stays { G.made group.new ≡ G.made group.old }
{
    for i in 0..count {
        let (vid, least) = pair_of(i, vids);
        group.add(disk, &Lesser, vid, &least.to_be_bytes())?;
    }
    Ok(())
}

// Sums vids and numbers of a group in the order in which they come.
fn sum<D: Disk, G: Group>(group: &mut G, disk: &mut D, into: &mut Buf) -> Result<Tally, Stop>
    requires page_len { (G.made group.old).frame_len ≡ (D.shown disk.old).page_len }
    requires sealed { IsTrue (G.is_sealed group.old) }
    requires limit { 13 + into.old.limit ≡ room_in (G.made group.old) }
{
    let mut tally = Tally::default();
    while let Some(vid) = group.next(disk, &Lesser, into)? {
        tally.add_next(vid.wrapping_add(number(into.bytes())));
    }
    Ok(tally)
}

/// Seals a group, and sums what it gives.
pub fn fold_all<D: Disk, G: Group>(
    group: &mut G,
    disk: &mut D,
    into: &mut Buf,
) -> Result<Tally, Stop>
    requires page_len { (G.made group.old).frame_len ≡ (D.shown disk.old).page_len }
    requires open { IsTrue (G.is_open group.old) }
    requires limit { 13 + into.old.limit ≡ room_in (G.made group.old) }
{
    group.seal(disk, &Lesser)?;
    sum(group, disk, into)
}

/// A group over so many frames and entries.
pub fn group_of<G: Group>(alloc: Global, frames: u32, entries: u32) -> Result<G, AllocError>
    requires frames { 6 ≤ frames }
    requires few { frames ≤ 65536 }
    requires entries { 32 ≤ entries }
    ensures open { IfOk result (λ group. IsTrue (G.is_open group)) }
    ensures frame_len { IfOk result (λ group. (G.made group).frame_len ≡ 262144) }
    ensures first { IfOk result (λ group. (G.made group).first ≡ 2) }
    ensures second { IfOk result (λ group. (G.made group).second ≡ 3) }
{
    let mut bank = Bank::open(alloc, PAGE, &[frames], entries)?;
    let share = bank.lend(0);
    let table = bank.lend_table();
    Ok(G::open(share, table, FIRST, SECOND))
}

/// A buffer for a payload.
pub fn payload_of(alloc: Global) -> Result<Buf, AllocError>
    ensures { IfOk result (λ into. into.limit ≡ 131043) }
{
    let frame = Frame::new(alloc, PAGE)?;
    Ok(Buf::over(frame, room(PAGE) - 13))
}

/// Groups so many pairs over a tenth as many vids, keeping the least number of each.
pub fn run<D: Disk, G: Group>(alloc: Global, disk: &mut D, count: u64) -> Result<Tally> {
    disk.start(PAGE)?;
    let mut group: G = group_of(alloc, FRAMES, ENTRIES)?;
    let mut into = payload_of(alloc)?;
    add(&mut group, disk, count, count.div_ceil(10))?;
    Ok(fold_all(&mut group, disk, &mut into)?)
}
