// What no clause says: values from outside, and each trait used through its bound.
ghost use Rattle.std.specs.Prelude.{◌≡◌, ◌<◌, ◌⊎◌, ℕ, List, ◌++◌, take, drop, IfOk, OnOk, OnErr};
ghost use Rattle.px_core.specs.Counts.{Rose};

use crate::{
    Failed, HighTurns, ListTurns, MemSink, MemSource, SeedTurns, Sink, Source, Turns, part_of,
    write_all,
};
use std::alloc::Global;
use std::test::Fail;

// Moves what one read gives, and answers how many bytes.
fn copy<S: Source, W: Sink>(
    source: &mut S,
    sink: &mut W,
    buffer: &mut [u8],
) -> Result<usize, Failed>
    ensures rest { IfOk result (λ n. (l : List ℕ) → S.left source.old l → S.left source.new (drop n l)) }
    ensures held { IfOk result (λ n. (l h : List ℕ) → S.left source.old l → W.holds sink.old h → W.holds sink.new (h ++ take n l)) }
    ensures cause { OnErr result (Rose (S.faults source.old) (S.faults source.new) ⊎ Rose (W.faults sink.old) (W.faults sink.new)) }
{
    let n = source.read(buffer)?;
    write_all(sink, &buffer[..n])?;
    Ok(n)
}

// In memory both tell, so the sink has grown by what the source has less.
fn copy_here(source: &mut MemSource, sink: &mut MemSink, buffer: &mut [u8]) -> Result<usize, Failed>
    ensures rest { IfOk result (λ n. source.new.left ≡ drop n source.old.left) }
    ensures held { IfOk result (λ n. sink.new.held ≡ sink.old.held ++ take n source.old.left) }
{
    copy(source, sink, buffer)
}

// A sink in memory tells what it holds after a failure too: a prefix more.
fn write_here(sink: &mut MemSink, bytes: &[u8]) -> Result<(), Failed>
    ensures ok { OnOk result (sink.new.held ≡ sink.old.held ++ bytes.now) }
    ensures err { OnErr result ((n : ℕ) × (sink.new.held ≡ sink.old.held ++ take n bytes.now)) }
{
    write_all(sink, bytes)
}

fn turn<T: Turns>(turns: &mut T, ready: u32) -> u32
    requires { 0 < ready }
{
    turns.start(7);
    turns.pick(ready)
}

#[test]
fn partition_values(rt: HostRuntime) {
    let table = [
        (1, [0, 0, 0, 0, 0]),
        (3, [0, 0, 2, 0, 0]),
        (4, [0, 1, 2, 0, 2]),
        (16, [0, 9, 2, 12, 6]),
    ];
    for (partitions, want) in table {
        for (vid, want) in [0, 1, 2, 3, u64::MAX].into_iter().zip(want) {
            assert_eq!(rt; part_of(vid, partitions), want, "{vid} among {partitions}");
        }
    }
}

#[test]
fn copies_through_the_bounds(rt: HostRuntime) -> Result<(), Fail> {
    let mut source = MemSource::new(rt.alloc(), b"abcdefg", &[])?;
    let mut sink = MemSink::new(rt.alloc(), 7, &[])?;
    let mut buffer = [0; 3];
    for want in [3, 3, 1, 0] {
        assert_eq!(rt; copy_here(&mut source, &mut sink, &mut buffer)?, want);
    }
    assert_eq!(rt; sink.bytes(), b"abcdefg".as_slice());
    Ok(())
}

#[test]
fn each_read_fails_in_turn(rt: HostRuntime) -> Result<(), Fail> {
    for fail in 1..=4 {
        let mut source = MemSource::new(rt.alloc(), b"abcde", &[fail])?;
        let mut all = Vec::new(rt.alloc());
        for call in 1..=4 {
            let mut buffer = [0; 2];
            let answer = source.read(&mut buffer);
            assert_eq!(rt; answer.is_err(), call == fail, "call {call}");
            if let Ok(n) = answer {
                all.extend_from_slice(&buffer[..n])?;
            }
        }
        assert_eq!(rt; all.as_slice(), b"abcde".as_slice());
    }
    Ok(())
}

#[test]
fn each_write_fails_in_turn(rt: HostRuntime) -> Result<(), Fail> {
    for (fail, want) in [(1, "cde"), (2, "abe"), (3, "abcd"), (4, "abcde")] {
        let mut sink = MemSink::new(rt.alloc(), 5, &[fail])?;
        for (call, part) in [(1, "ab"), (2, "cd"), (3, "e")] {
            let answer = sink.write(part.as_bytes());
            assert_eq!(rt; answer.is_err(), call == fail, "call {call}");
        }
        assert_eq!(rt; sink.bytes(), want.as_bytes());
    }
    Ok(())
}

#[test]
fn a_full_sink_fails_with_a_prefix(rt: HostRuntime) -> Result<(), Fail> {
    let mut sink = MemSink::new(rt.alloc(), 3, &[])?;
    assert_eq!(rt; write_here(&mut sink, b"abcde"), Err(Failed));
    assert_eq!(rt; sink.bytes(), b"abc".as_slice());
    assert_eq!(rt; sink.write(&[]), Ok(0));
    Ok(())
}

#[test]
fn listed_turns_and_then_the_lowest(rt: HostRuntime) -> Result<(), Fail> {
    let mut turns = ListTurns::new(rt.alloc(), &[3, 0, 40, 1])?;
    let table = [
        (0b1100, 3),
        (0b1100, 2),
        (0b1100, 2),
        (0b1011, 1),
        (0b1010_0000, 5),
        (1 << 31, 31),
    ];
    for (ready, want) in table {
        assert_eq!(rt; turn(&mut turns, ready), want, "{ready:b}");
    }
    Ok(())
}

#[test]
fn the_highest_turn(rt: HostRuntime) {
    let mut turns = HighTurns::new();
    let table = [
        (0b1, 0),
        (0b1100, 3),
        (0b1010_0000, 7),
        (1 << 31, 31),
        (u32::MAX, 31),
        (u32::MAX >> 1, 30),
    ];
    for (ready, want) in table {
        assert_eq!(rt; turn(&mut turns, ready), want, "{ready:b}");
    }
}

// The numbers come from PCG's definition, worked out outside of Rattle.
#[test]
fn seeded_turns_begin_anew(rt: HostRuntime) {
    let all = [
        0xffff,
        0xffff,
        0xffff,
        0xffff,
        0b1010_0000,
        1 << 31,
        u32::MAX,
        1 << 31 | 1,
        0b1110,
    ];
    let table = [
        (0, [9, 13, 4, 1, 7, 31, 26, 0, 1]),
        (7, [10, 14, 0, 15, 7, 31, 23, 31, 2]),
        (7, [10, 14, 0, 15, 7, 31, 23, 31, 2]),
        (u64::MAX, [1, 6, 13, 11, 7, 31, 9, 31, 1]),
        (0, [9, 13, 4, 1, 7, 31, 26, 0, 1]),
    ];
    let mut turns = SeedTurns::new();
    assert_eq!(rt; turns.pick(0xffff), 9);
    for (seed, wants) in table {
        turns.start(seed);
        for (ready, want) in all.into_iter().zip(wants) {
            assert_eq!(rt; turns.pick(ready), want, "{ready:b} with seed {seed}");
        }
    }
    assert_eq!(rt; turn(&mut turns, 0xffff), 10);
}
