ghost use Rattle.std.specs.Prelude.{◌≡◌, ◌≤◌, ◌<◌, ◌≢◌, ◌++◌, IsTrue, List, ℕ, length, slice_set, slice_index_or, OnOk};
ghost use Rattle.std.specs.Bool.{OnTrue};
ghost use Rattle.px_frames.specs.Banks.{IsFrameLen, SameMade, is_home};
ghost use Rattle.px_frames.specs.Shares.{SamePlaces};

use crate::{Bank, Buf, Frame, Share, SlotShare, Wide};
use std::test::Fail;

// Whether this may be the length of a frame.
fn is_valid(len: u32) -> bool
    ensures { OnTrue result (IsFrameLen len) }
{
    match len {
        256
        | 512
        | 1024
        | 2048
        | 4096
        | 8192
        | 16384
        | 32768
        | 65536
        | 131072
        | 262144
        | 524288
        | 1048576 => true,
        _ => false,
    }
}

// Two slots that come home in the other order leave the bank as it was.
fn lend_two(bank: &mut Bank, first: u32, second: u32)
    requires first { first < length bank.old.slots }
    requires second { second < length bank.old.slots }
    requires apart { first ≢ second }
    requires first_home { IsTrue (is_home bank.old first) }
    requires second_home { IsTrue (is_home bank.old second) }
    ensures { bank.new ≡ bank.old }
{
    let one = bank.lend(first);
    let two = bank.lend(second);
    bank.give(second, two);
    bank.give(first, one);
}

// So do two that come home in the order in which they went.
fn lend_two_in_turn(bank: &mut Bank, first: u32, second: u32)
    requires first { first < length bank.old.slots }
    requires second { second < length bank.old.slots }
    requires apart { first ≢ second }
    requires first_home { IsTrue (is_home bank.old first) }
    requires second_home { IsTrue (is_home bank.old second) }
    ensures { bank.new ≡ bank.old }
{
    let one = bank.lend(first);
    let two = bank.lend(second);
    bank.give(first, one);
    bank.give(second, two);
}

// A slot and the table that come home in the order in which they went leave the bank as it was.
fn lend_slot_and_table(bank: &mut Bank, slot: u32)
    requires in_range { slot < length bank.old.slots }
    requires slot_home { IsTrue (is_home bank.old slot) }
    requires table_home { IsTrue bank.old.table_home }
    ensures { bank.new ≡ bank.old }
{
    let share = bank.lend(slot);
    let table = bank.lend_table();
    bank.give(slot, share);
    bank.give_table(table);
}

// What is out has the sizes that the bank still has.
fn lend_both(bank: &mut Bank, slot: u32) -> (Share, SlotShare)
    requires in_range { slot < length bank.old.slots }
    requires slot_home { IsTrue (is_home bank.old slot) }
    requires table_home { IsTrue bank.old.table_home }
    ensures made { SameMade bank.old bank.new }
    ensures capacity { result.1.capacity ≡ bank.new.table_entries }
{
    let share = bank.lend(slot);
    let table = bank.lend_table();
    (share, table)
}

// A frame that is taken and put back leaves the share as it was.
fn take_and_put(share: &mut Share)
    requires { 0 < length share.old.frames }
    ensures { share.new ≡ share.old }
{
    let frame = share.take();
    share.put(frame);
}

// Writes over the first byte held.
fn write_first(buf: &mut Buf, byte: u8)
    requires { 0 < length buf.old.bytes }
    ensures bytes { buf.new.bytes ≡ slice_set buf.old.bytes 0 byte }
    ensures limit { buf.new.limit ≡ buf.old.limit }
{
    buf.bytes_mut()[0] = byte;
}

// Appends twice: what was there before is not lost.
fn append_two(buf: &mut Buf, one: &[u8], two: &[u8]) -> Result<(), Wide>
    ensures ok { OnOk result (buf.new.bytes ≡ buf.old.bytes ++ one.now ++ two.now) }
    ensures within { length buf.new.bytes ≤ buf.new.limit }
    ensures limit { buf.new.limit ≡ buf.old.limit }
{
    buf.append(one)?;
    buf.append(two)
}

// Writes over the first byte of the first frame.
fn write_first_frame(share: &mut Share, byte: u8)
    requires some { 0 < length share.old.frames }
    requires long { 0 < share.old.frame_len }
    ensures stays { SamePlaces share.old share.new }
    ensures notes { share.new.notes ≡ share.old.notes }
    ensures len { length share.new.frames ≡ length share.old.frames }
    ensures frame { (d : List ℕ) → slice_index_or share.new.frames 0 d ≡ slice_set (slice_index_or share.old.frames 0 d) 0 byte }
{
    share.frame_mut(0)[0] = byte;
}

#[test]
fn a_buffer_takes_up_to_its_limit(rt: HostRuntime) -> Result<(), Fail> {
    let mut buf = Buf::over(Frame::new(rt.alloc(), 8)?, 3);
    for (first, more, held) in [
        (b"".as_slice(), b"".as_slice(), b"".as_slice()),
        (b"ab", b"c", b"abc"),
        (b"ab", b"cd", b"ab"),
        (b"abcd", b"abc", b"abc"),
        (b"abcd", b"abcd", b""),
    ] {
        buf.clear();
        assert_eq!(rt; buf.set(first).is_ok(), first.len() <= 3);
        assert_eq!(rt; buf.append(more).is_ok(), held.ends_with(more));
        assert_eq!(rt; buf.bytes(), held);
        if !held.is_empty() {
            write_first(&mut buf, b'z');
            assert_eq!(rt; (buf.bytes()[0], &buf.bytes()[1..]), (b'z', &held[1..]));
        }
    }
    assert_eq!(rt; buf.close().bytes().len(), 8);
    Ok(())
}

#[test]
fn slots_are_lent_and_given_back(rt: HostRuntime) -> Result<(), Fail> {
    let mut bank = Bank::open(rt.alloc(), 256, &[4, 3, 2], 0)?;
    let share = bank.lend(1);
    assert_eq!(rt; (share.size(), share.len()), (3, 3));
    assert_eq!(rt;
        (bank.home(0), bank.home(1), bank.home(2)),
        (true, false, true)
    );
    bank.give(1, share);
    assert!(rt; bank.home(1));
    Ok(())
}

#[test]
fn a_write_reaches_one_frame(rt: HostRuntime) -> Result<(), Fail> {
    let mut share = Share::full(rt.alloc(), 2, 256)?;
    write_first_frame(&mut share, 7);
    assert_eq!(rt; (share.frame(0)[0], share.frame(1)[0]), (7, 0));
    Ok(())
}

#[test]
fn a_range_is_copied_to_another_frame(rt: HostRuntime) -> Result<(), Fail> {
    let mut share = Share::full(rt.alloc(), 3, 256)?;
    write_first_frame(&mut share, 7);
    share.copy_range(0, 0, 2, 1, 254);
    share.copy_range(1, 253, 3, 2, 0);
    assert_eq!(rt; &share.frame(1)[252..], [0, 0, 7, 0].as_slice());
    assert_eq!(rt; &share.frame(2)[..4], [0, 7, 0, 0].as_slice());
    share.copy(1, 2);
    assert_eq!(rt; share.frame(2), share.frame(1));
    Ok(())
}

#[test]
fn a_note_stays_at_its_place(rt: HostRuntime) -> Result<(), Fail> {
    let mut share = Share::full(rt.alloc(), 2, 256)?;
    share.set_note(1, 5, 6);
    take_and_put(&mut share);
    assert_eq!(rt; share.note(1), (5, 6));
    assert_eq!(rt; share.note(0), (0, 0));
    Ok(())
}

#[test]
fn entries_hold_the_largest_numbers(rt: HostRuntime) -> Result<(), Fail> {
    let mut table = SlotShare::new(rt.alloc(), 3)?;
    table.push(1, 2, 3, 4);
    table.push(u64::MAX, 65535, 16777215, 16777214);
    table.push(0, 0, 0, 0);
    assert_eq!(rt; table.entry(1), (u64::MAX, 65535, 16777215, 16777214));
    table.set(1, 5, 256, 65536, 255);
    assert_eq!(rt; table.entry(0), (1, 2, 3, 4));
    assert_eq!(rt; table.entry(1), (5, 256, 65536, 255));
    assert_eq!(rt; table.entry(2), (0, 0, 0, 0));
    Ok(())
}

#[test]
fn a_sort_orders_by_vid_and_keeps_each_entry(rt: HostRuntime) -> Result<(), Fail> {
    let mut table = SlotShare::new(rt.alloc(), 4)?;
    table.push(u64::MAX, 0, 0, 1);
    table.push(7, 3, 0, 2);
    table.push(0, 9, 0, 3);
    table.push(7, 1, 0, 4);
    table.sort();
    assert_eq!(rt;
        (table.entry(0), table.entry(3)),
        ((0, 9, 0, 3), (u64::MAX, 0, 0, 1))
    );
    let (one, two) = (table.entry(1), table.entry(2));
    assert_eq!(rt; (one.0, two.0, one.3 + two.3), (7, 7, 6));
    Ok(())
}

#[test]
fn the_table_is_lent_and_given_back(rt: HostRuntime) -> Result<(), Fail> {
    let mut bank = Bank::open(rt.alloc(), 256, &[2], 2)?;
    let mut table = bank.lend_table();
    table.push(1, 2, 3, 4);
    table.clear();
    table.push(5, 6, 7, 8);
    assert_eq!(rt; (table.capacity(), table.len()), (2, 1));
    assert_eq!(rt; (bank.table_home(), bank.home(0)), (false, true));
    bank.give_table(table);
    assert!(rt; bank.table_home());
    lend_slot_and_table(&mut bank, 0);
    let (share, table) = lend_both(&mut bank, 0);
    assert_eq!(rt; (share.size(), table.capacity(), table.len()), (2, 2, 0));
    Ok(())
}
