// What no clause says: what a reader finds in the files, and a disk that fails each call in turn.
ghost use Rattle.std.specs.Prelude.{◌≡◌, ◌≤◌, ◌<◌, [], ◌∷◌, true, length, IfOk, OnOk};
ghost use Rattle.px_connectors.specs.Asking.{AskedOf, SameRequests};

use crate::{Connector, Partitioning, Requests};
use px_core::{Disk, HighTurns, ListTurns, Stop, Turns, Vid, part_of};
use px_frames::{Bank, Buf, Frame, Share};
use px_memdisk::MemDisk;
use px_pages::tags;
use px_stream::{Head, Reader};
use std::alloc::Global;
use std::test::Fail;

// A sender puts three pairs, and ends.
fn send_three<C: Connector, D: Disk>(
    disk: &mut D,
    connector: &mut C,
    sender: u32,
) -> Result<(), Stop>
    requires sender { sender < (C.view connector.old).parts }
    requires frame_len { (C.view connector.old).frame_len ≡ 256 }
    requires page_len { (D.shown disk.old).page_len ≡ 256 }
    ensures sent { OnOk result ((D.shown disk.old).tells ≡ true → C.sent connector.new (D.shown disk.new) sender ((1, 97 ∷ []) ∷ (2, []) ∷ (2, 98 ∷ []) ∷ [])) }
    ensures page_len { (D.shown disk.new).page_len ≡ 256 }
{
    connector.begin(disk, sender)?;
    connector.put(disk, 1, b"a")?;
    connector.put(disk, 2, b"")?;
    connector.put(disk, 2, b"b")?;
    connector.finish(disk)
}

// Three requests of a superstep.
fn ask_three<D: Disk>(disk: &mut D, requests: &mut Requests) -> Result<(), Stop>
    requires frame_len { requests.old.frame_len ≡ 256 }
    requires page_len { (D.shown disk.old).page_len ≡ 256 }
    ensures asked { OnOk result ((D.shown disk.old).tells ≡ true → AskedOf (D.shown disk.new) requests.new ((1, 97 ∷ []) ∷ (2, []) ∷ (2, 98 ∷ []) ∷ [])) }
    ensures stays { SameRequests requests.old requests.new }
    ensures page_len { (D.shown disk.new).page_len ≡ 256 }
{
    requests.start(disk)?;
    requests.put(disk, 1, b"a")?;
    requests.put(disk, 2, b"")?;
    requests.put(disk, 2, b"b")?;
    requests.finish(disk)?;
    Ok(())
}

// Whether the first page of a file holds these tuples, and no more.
fn page_holds(
    alloc: Global,
    disk: &mut MemDisk,
    file: u32,
    tag: u8,
    want: &[(Vid, &[u8])],
) -> Result<bool, Fail>
    requires { disk.old.page_len ≡ 256 }
    ensures { disk.new.page_len ≡ 256 }
{
    let mut reader = Reader::new(Frame::new(alloc, 256)?, file);
    let mut into = Buf::over(Frame::new(alloc, 256)?, 99);
    reader.start(1);
    for (key, body) in want {
        let head = reader.next(disk, &mut into)?;
        if head != Some(Head { key: *key, tag }) || into.bytes() != *body {
            return Ok(false);
        }
    }
    Ok(reader.next(disk, &mut into)?.is_none())
}

// A share of so many frames of 256 bytes.
fn share_of(alloc: Global, frames: u32) -> Result<Share, Fail>
    requires { frames ≤ 16 }
    ensures frames { IfOk result (λ s. length s.frames ≡ frames) }
    ensures frame_len { IfOk result (λ s. s.frame_len ≡ 256) }
{
    let mut bank = Bank::open(alloc, 256, &[frames], 0)?;
    Ok(bank.lend(0))
}

// The last of so many senders sends, and the requests are asked, over a disk of which this call fails.
fn round(
    alloc: Global,
    parts: u32,
    fail: u64,
) -> Result<(MemDisk, Result<(), Stop>, Result<(), Stop>), Fail>
    requires some { 1 ≤ parts }
    requires most { parts ≤ 16 }
    ensures page_len { IfOk result (λ r. r.0.page_len ≡ 256) }
{
    let mut disk = MemDisk::new(alloc, &[fail])?;
    disk.start(256)?;
    let mut connector = Partitioning::open(share_of(alloc, parts)?, parts);
    let mut requests = Requests::open(share_of(alloc, parts)?, parts);
    let sent = send_three(&mut disk, &mut connector, parts - 1);
    let asked = ask_three(&mut disk, &mut requests);
    Ok((disk, sent, asked))
}

// Whether the first page of the file from the last sender to a receiver, and that of the requests to it, hold these tuples.
fn receiver_has(
    alloc: Global,
    disk: &mut MemDisk,
    parts: u32,
    receiver: u32,
    want: &[(Vid, &[u8])],
) -> Result<bool, Fail>
    requires page_len { disk.old.page_len ≡ 256 }
    requires some { 1 ≤ parts }
    requires most { parts ≤ 16 }
    requires receiver { receiver < 16 }
    ensures { disk.new.page_len ≡ 256 }
{
    let file = 256 + 16 * (parts - 1) + receiver;
    Ok(
        page_holds(alloc, disk, file, tags::MESSAGE, want)?
            && page_holds(alloc, disk, 160 + receiver, tags::REQUEST, want)?,
    )
}

const ALL: &[(Vid, &[u8])] = &[(1, b"a"), (2, b""), (2, b"b")];

// The number of partitions, a receiver, and which of the pairs it has.
const ROWS: &[(u32, u32, usize, usize)] = &[
    (1, 0, 0, 3),
    (3, 0, 0, 1),
    (3, 1, 0, 0),
    (3, 2, 1, 3),
    (16, 9, 0, 1),
    (16, 2, 1, 3),
    (16, 15, 0, 0),
];

#[test]
fn each_receiver_has_its_pairs(rt: HostRuntime) -> Result<(), Fail> {
    let alloc = rt.alloc();
    for (parts, receiver, from, to) in ROWS {
        let (mut disk, sent, asked) = round(alloc, *parts, 0)?;
        assert_eq!(rt; (sent, asked), (Ok(()), Ok(())));
        let want = &ALL[*from..*to];
        assert!(rt;
            receiver_has(alloc, &mut disk, *parts, *receiver, want)?,
            "{receiver} of {parts}"
        );
    }
    Ok(())
}

#[test]
fn each_call_of_the_disk_fails_in_turn(rt: HostRuntime) -> Result<(), Fail> {
    let alloc = rt.alloc();
    // With three partitions: three files are cleared, and two have a page.
    for fail in 2..=6 {
        let (_, sent, _) = round(alloc, 3, fail)?;
        assert_eq!(rt; sent, Err(Stop::Scratch), "{fail}");
    }
    for fail in 7..=11 {
        let (_, sent, asked) = round(alloc, 3, fail)?;
        assert_eq!(rt; (sent, asked), (Ok(()), Err(Stop::Scratch)), "{fail}");
    }
    Ok(())
}

// A sender puts a payload to vid 0, so often.
fn send_often<C: Connector, D: Disk>(
    disk: &mut D,
    connector: &mut C,
    sender: u32,
    payload: &[u8],
    times: u32,
) -> Result<(), Stop>
    requires sender { sender < (C.view connector.old).parts }
    requires frame_len { (C.view connector.old).frame_len ≡ 256 }
    requires page_len { (D.shown disk.old).page_len ≡ 256 }
    requires payload { length payload.now ≤ 99 }
    ensures page_len { (D.shown disk.new).page_len ≡ 256 }
    ensures parts { (C.view connector.new).parts ≡ (C.view connector.old).parts }
    ensures frame_len { (C.view connector.new).frame_len ≡ 256 }
{
    connector.begin(disk, sender)?;
    for _ in 0..times {
        connector.put(disk, 0, payload)?;
    }
    connector.finish(disk)
}

// Whether the open receiver is given payloads to vid 0 that begin with these bytes, and no more.
fn is_given<C: Connector, D: Disk, T: Turns>(
    disk: &mut D,
    connector: &mut C,
    turns: &mut T,
    want: &[u8],
    into: &mut Buf,
) -> Result<bool, Stop>
    requires frame_len { (C.view connector.old).frame_len ≡ 256 }
    requires page_len { (D.shown disk.old).page_len ≡ 256 }
    requires limit { into.old.limit ≡ 99 }
{
    for byte in want {
        match connector.next(disk, turns, into)? {
            Some(0) if into.bytes().first() == Some(byte) => {}
            _ => return Ok(false),
        }
    }
    Ok(connector.next(disk, turns, into)?.is_none())
}

// Two senders send their numbers so often, and a receiver is to be given them in this order.
fn exchange<C: Connector, D: Disk, T: Turns>(
    disk: &mut D,
    connector: &mut C,
    turns: &mut T,
    row: (usize, u32, &[u8]),
    into: &mut Buf,
) -> Result<bool, Stop>
    requires parts { (C.view connector.old).parts ≡ 2 }
    requires frame_len { (C.view connector.old).frame_len ≡ 256 }
    requires page_len { (D.shown disk.old).page_len ≡ 256 }
    requires limit { into.old.limit ≡ 99 }
    requires len { row.0 ≤ 60 }
{
    let (len, times, want) = row;
    send_often(disk, connector, 0, &[0; 60][..len], times)?;
    send_often(disk, connector, 1, &[1; 60][..len], times)?;
    connector.receive(disk, part_of(0, 2))?;
    is_given(disk, connector, turns, want, into)
}

// The same over a disk of which this call fails.
fn exchange_round<T: Turns>(
    alloc: Global,
    turns: &mut T,
    row: (usize, u32, &[u8]),
    fail: u64,
) -> Result<Result<bool, Stop>, Fail>
    requires len { row.0 ≤ 60 }
{
    let mut disk = MemDisk::new(alloc, &[fail])?;
    disk.start(256)?;
    let mut connector = Partitioning::open(share_of(alloc, 2)?, 2);
    let mut into = Buf::over(Frame::new(alloc, 256)?, 99);
    Ok(exchange(&mut disk, &mut connector, turns, row, &mut into))
}

// How long each payload is, how often each sender puts it, and in which order they come: by the lowest bit, by the highest, and by the list 1, 0, 1.
// A page holds three payloads of 60 bytes, so both senders have one of three and one of one.
const EXCHANGES: &[(usize, u32, &[u8], &[u8], &[u8])] = &[
    (1, 1, &[0, 1], &[1, 0], &[1, 0]),
    (
        60,
        4,
        &[0, 0, 0, 0, 1, 1, 1, 1],
        &[1, 1, 1, 1, 0, 0, 0, 0],
        &[1, 1, 1, 0, 0, 0, 1, 0],
    ),
    (60, 0, &[], &[], &[]),
];

#[test]
fn a_receiver_is_given_whole_frames_by_turns(rt: HostRuntime) -> Result<(), Fail> {
    let alloc = rt.alloc();
    for (len, times, low, high, listed) in EXCHANGES {
        let mut turns = ListTurns::new(alloc, &[])?;
        assert_eq!(rt;
            exchange_round(alloc, &mut turns, (*len, *times, *low), 0)?,
            Ok(true)
        );
        let mut turns = HighTurns::new();
        assert_eq!(rt;
            exchange_round(alloc, &mut turns, (*len, *times, *high), 0)?,
            Ok(true)
        );
        let mut turns = ListTurns::new(alloc, &[1, 0, 1])?;
        assert_eq!(rt;
            exchange_round(alloc, &mut turns, (*len, *times, *listed), 0)?,
            Ok(true)
        );
    }
    Ok(())
}

#[test]
fn each_call_of_the_disk_fails_under_a_receiver(rt: HostRuntime) -> Result<(), Fail> {
    let alloc = rt.alloc();
    // Each sender clears two files and writes two pages, and the receiver reads the four.
    for fail in 2..=13 {
        let mut turns = HighTurns::new();
        let given = exchange_round(alloc, &mut turns, (60, 4, &[1, 1, 1, 1, 0, 0, 0, 0]), fail)?;
        assert_eq!(rt; given, Err(Stop::Scratch), "{fail}");
    }
    let mut turns = HighTurns::new();
    let given = exchange_round(alloc, &mut turns, (60, 4, &[1, 1, 1, 1, 0, 0, 0, 0]), 14)?;
    assert_eq!(rt; given, Ok(true));
    Ok(())
}

#[test]
fn frames_are_given_back(rt: HostRuntime) -> Result<(), Fail> {
    let alloc = rt.alloc();
    let connector = Partitioning::open(share_of(alloc, 16)?, 3);
    assert_eq!(rt; connector.close().len(), 16);
    let requests = Requests::open(share_of(alloc, 16)?, 16);
    assert_eq!(rt; requests.close().len(), 16);
    Ok(())
}
