// Merges, printed values, and one step of each program over an outbox in memory.
ghost use Rattle.std.specs.Prelude.{◌≡◌, ◌+◌, [], true, false, IfOk};
ghost use Rattle.px_program.specs.Posted.{made_for, gathered, pieces_in};

use crate::{
    ChainMessages, Chains, Close, Components, Empty, Entries, Lesser, PageRank, Prune, Reach,
    Reverse, Sssp, Sum,
};
use px_core::{Failed, MemSink, Stop, Vid, write_all};
use px_frames::{Buf, Frame};
use px_program::{At, Merge, Outbox, Program, print_decimal};
use px_record::VertexBuf;
use std::alloc::{AllocError, Global};
use std::test::Fail;

const ROOM: u32 = 112;

/// Writes a line for each thing that is posted, payloads and verdicts in hexadecimal.
#[derive(Drop)]
struct Trace<'a, P: Program> {
    program: &'a P,
    lines: MemSink,
    spare: Buf,
    long: bool,

    ghost is: { 13 + spare.limit ≡ 112 },
}

impl<'a, P: Program> Trace<'a, P> {
    fn new(alloc: Global, program: &'a P) -> Result<Trace<'a, P>, AllocError>
        ensures program { IfOk result (λ t. t.program.now ≡ program.now) }
        ensures pieces { IfOk result (λ t. pieces_in t.long t.spare.bytes ≡ gathered 112 []) }
    {
        Ok(Trace {
            program,
            lines: MemSink::new(alloc, 512, &[])?,
            spare: Buf::over(Frame::new(alloc, 256)?, ROOM - 13),
            long: false,
        })
    }

    // Lets all pieces go.
    fn clear(&mut self)
        ensures program { self.new.program ≡ self.old.program }
        ensures pieces { pieces_in self.new.long self.new.spare.bytes ≡ gathered 112 [] }
    {
        self.spare.clear();
        self.long = false;
    }
}

// Writes bytes in hexadecimal, and ends the line.
fn write_hex(bytes: &[u8], lines: &mut MemSink) -> Result<(), Failed> {
    for b in bytes {
        let digits = b"0123456789abcdef";
        let pair = [digits[usize::from(*b / 16)], digits[usize::from(*b % 16)]];
        write_all(lines, &pair)?;
    }
    write_all(lines, b"\n")
}

// Writes what was done to a vid, and with which bytes.
fn write_line(what: &[u8], vid: Vid, bytes: &[u8], lines: &mut MemSink) {
    let _ = write_all(lines, what);
    let _ = print_decimal(vid, lines);
    let _ = write_all(lines, b" ");
    let _ = write_hex(bytes, lines);
}

impl<P: Program> Outbox for Trace<'_, P> {
    ghost took = { λ o p. ⊥ };

    ghost made_for = { λ o. made_for (P.meaning o.program.now) 112 };

    ghost faults = { λ o. 0 };

    ghost is_open = { λ o. true };

    ghost pieces = { λ o. pieces_in o.long o.spare.bytes };

    fn send(&mut self, to: Vid, payload: &[u8]) -> Result<(), Stop> {
        if payload.len() > 99 {
            return Err(Stop::Beyond);
        }
        write_line(b"send ", to, payload, &mut self.lines);
        Ok(())
    }

    fn piece(&mut self, bytes: &[u8]) {
        if !self.long {
            self.long = self.spare.append(bytes).is_err();
        }
    }

    fn send_pieces(&mut self, to: Vid) -> Result<(), Stop> {
        if self.long {
            self.clear();
            return Err(Stop::Beyond);
        }
        write_line(b"send ", to, self.spare.bytes(), &mut self.lines);
        self.clear();
        Ok(())
    }

    fn request(&mut self, vid: Vid, verdict: &[u8]) -> Result<(), Stop> {
        if verdict.len() > 99 {
            return Err(Stop::Beyond);
        }
        write_line(b"request ", vid, verdict, &mut self.lines);
        Ok(())
    }

    fn contribute(&mut self, n: u64) {
        write_line(b"contribute ", n, b"", &mut self.lines);
    }
}

// Whether two messages are merged to the third of a case, in each case.
fn merges_all<M: Merge>(
    alloc: Global,
    rule: &M,
    cases: &[[[u8; 8]; 3]],
) -> Result<bool, AllocError> {
    let mut buf = Buf::over(Frame::new(alloc, 256)?, ROOM);
    for [a, b, want] in cases {
        let _ = buf.set(a);
        if rule.merge_into(&mut buf, b).is_err() || buf.bytes() != want.as_slice() {
            return Ok(false);
        }
    }
    Ok(true)
}

// A vertex with this value, and edges of weight 3 to 7 and of weight 5 to 9.
fn vertex(alloc: Global, vid: Vid, value: &[u8]) -> Result<VertexBuf, AllocError>
    ensures { IfOk result (λ v. v.vid ≡ vid) }
{
    let mut v = VertexBuf::over(Frame::new(alloc, 256)?, ROOM);
    v.reset(vid);
    let _ = v.set_value(value);
    let _ = v.push_edge(7, 3);
    let _ = v.push_edge(9, 5);
    Ok(v)
}

// Whether a program prints each value as this text.
fn prints_all<P: Program>(
    alloc: Global,
    program: &P,
    cases: &[(&[u8], &str)],
) -> Result<bool, AllocError> {
    let mut v = vertex(alloc, 1, b"")?;
    for (value, want) in cases {
        let mut sink = MemSink::new(alloc, 64, &[])?;
        if v.set_value(value).is_err()
            || program.print_value(&v, &mut sink).is_err()
            || sink.bytes() != want.as_bytes()
        {
            return Ok(false);
        }
    }
    Ok(true)
}

const TWO: [u8; 8] = [0, 0, 0, 0, 0, 0, 0, 2];

const FIVE: [u8; 8] = [0, 0, 0, 0, 0, 0, 0, 5];

const HIGH: [u8; 8] = [2, 0, 0, 0, 0, 0, 0, 1];

const MOST: [u8; 8] = [255; 8];

#[test]
fn merges(rt: HostRuntime) -> Result<(), Fail> {
    let seven = [0, 0, 0, 0, 0, 0, 0, 7];
    let lesser = [[FIVE, TWO, TWO], [FIVE, HIGH, FIVE], [MOST, HIGH, HIGH]];
    let sums = [[FIVE, TWO, seven], [MOST, TWO, MOST], [MOST, MOST, MOST]];
    assert!(rt; merges_all(rt.alloc(), &Lesser, &lesser)?);
    assert!(rt; merges_all(rt.alloc(), &Sum, &sums)?);
    Ok(())
}

#[test]
fn empty_messages_merge(rt: HostRuntime) -> Result<(), Fail> {
    let mut buf = Buf::over(Frame::new(rt.alloc(), 256)?, ROOM);
    assert_eq!(rt; Empty.merge_into(&mut buf, &[]), Ok(()));
    assert!(rt; buf.bytes().is_empty());
    Ok(())
}

// Entries of weight 1 from these vids, as bytes.
fn entries(alloc: Global, vids: &[u64]) -> Result<Vec<u8>, AllocError> {
    let mut bytes = Vec::with_capacity(alloc, 12 * vids.len())?;
    for vid in vids {
        bytes.extend_from_slice(&vid.to_be_bytes())?;
        bytes.extend_from_slice(&1u32.to_be_bytes())?;
    }
    Ok(bytes)
}

// Entries of the first list are kept and those of the second merged into them.
#[test]
fn entries_merge(rt: HostRuntime) -> Result<(), Fail> {
    let alloc = rt.alloc();
    let cases: [[&[u64]; 3]; 6] = [
        [&[2], &[1], &[1, 2]],
        [&[1], &[2], &[1, 2]],
        [&[3, 3], &[3], &[3, 3, 3]],
        [&[1, 4, 6], &[2, 4, 5, 9], &[1, 2, 4, 4, 5, 6, 9]],
        [&[5, 6, 7, 8], &[1, 2], &[1, 2, 5, 6, 7, 8]],
        [&[1, 256], &[2, 255, 257], &[1, 2, 255, 256, 257]],
    ];
    for [held, more, want] in &cases {
        let mut buf = Buf::over(Frame::new(alloc, 256)?, 84);
        let _ = buf.set(&entries(alloc, held)?);
        assert!(rt; Entries.merge_into(&mut buf, &entries(alloc, more)?).is_ok());
        assert_eq!(rt; buf.bytes(), entries(alloc, want)?.as_slice());
    }
    Ok(())
}

// Of notes it is kept that there were many, and an answer goes before them.
#[test]
fn chain_messages_merge(rt: HostRuntime) -> Result<(), Fail> {
    let called = [1, 1, 0, 0, 0, 0, 0, 0, 0, 5];
    let told = [1, 0, 0, 0, 0, 0, 0, 0, 0, 6];
    let many = [2, 0, 0, 0, 0, 0, 0, 0, 0, 0];
    let answer = [3, 0, 0, 0, 8, 0, 0, 0, 0, 0, 0, 0, 5];
    let greater = [3, 0, 0, 0, 8, 0, 0, 0, 0, 0, 0, 1, 0];
    let cases: [[&[u8]; 3]; 6] = [
        [&called, &told, &many],
        [&called, &called, &many],
        [&many, &told, &many],
        [&answer, &told, &answer],
        [&many, &answer, &answer],
        [&answer, &greater, &greater],
    ];
    let mut buf = Buf::over(Frame::new(rt.alloc(), 256)?, ROOM);
    for [a, b, want] in cases {
        assert_eq!(rt; buf.set(a), Ok(()));
        assert_eq!(rt; ChainMessages.merge_into(&mut buf, b), Ok(()));
        assert_eq!(rt; buf.bytes(), want);
    }
    Ok(())
}

#[test]
fn prints_values(rt: HostRuntime) -> Result<(), Fail> {
    let numbers: [(&[u8], &str); 4] = [
        (&[0, 0, 0, 0, 0, 0, 1, 2], "258"),
        (&MOST, "18446744073709551615"),
        (&[0; 7], "-"),
        (b"", "-"),
    ];
    let distances: [(&[u8], &str); 4] = [
        (&[0; 8], "0"),
        (&[0, 0, 0, 0, 0, 0, 1, 2], "258"),
        (&MOST, "inf"),
        (b"", "-"),
    ];
    let marks: [(&[u8], &str); 4] = [(&[0], "0"), (&[1], "1"), (&[2], "-"), (b"", "-")];
    assert!(rt; prints_all(rt.alloc(), &Reach::new(1), &marks)?);
    assert!(rt; prints_all(rt.alloc(), &Sssp::new(1), &distances)?);
    assert!(rt; prints_all(rt.alloc(), &Components::new(), &numbers)?);
    assert!(rt; prints_all(rt.alloc(), &PageRank::new(9), &numbers)?);
    let dashes: [(&[u8], &str); 2] = [(b"abc", "-"), (b"", "-")];
    assert!(rt; prints_all(rt.alloc(), &Close::new(), &dashes)?);
    assert!(rt; prints_all(rt.alloc(), &Prune::new(), &dashes)?);
    assert!(rt; prints_all(rt.alloc(), &Reverse::new(), &dashes)?);
    let paths: [(&[u8], &str); 4] = [
        (&[0, 0, 0, 0, 0, 0, 0, 0, 7], "7"),
        (
            &[2, 0, 0, 0, 0, 0, 0, 0, 7, 0, 0, 0, 0, 0, 0, 1, 2],
            "7+258",
        ),
        (&[3, 0, 0, 0, 0, 0, 0, 0, 7], "-"),
        (b"", "-"),
    ];
    assert!(rt; prints_all(rt.alloc(), &Chains::new(), &paths)?);
    Ok(())
}

// A superstep of four vertices.
fn at(superstep: u64) -> At
    ensures { result.fresh ≡ false }
{
    At {
        superstep,
        aggregate: 0,
        count: 4,
        fresh: false,
    }
}

// What vertex 6 with this value does in a step: what it posts, and then its halt and its value.
fn step<P: Program>(
    alloc: Global,
    program: &P,
    superstep: u64,
    value: &[u8],
    msg: Option<&[u8]>,
) -> Result<MemSink, AllocError> {
    let v = vertex(alloc, 6, value)?;
    take_steps(alloc, program, superstep, v, msg)
}

// What this vertex does in a step.
fn take_steps<P: Program>(
    alloc: Global,
    program: &P,
    superstep: u64,
    mut v: VertexBuf,
    msg: Option<&[u8]>,
) -> Result<MemSink, AllocError> {
    let mut out = Trace::new(alloc, program)?;
    let computed = program.compute(&at(superstep), &mut v, msg, &mut out);
    let Trace { mut lines, .. } = out;
    let end: &[u8] = match (computed, v.halt()) {
        (Err(_), _) => b"beyond ",
        (Ok(()), true) => b"halted ",
        (Ok(()), false) => b"awake ",
    };
    write_line(end, v.vid(), v.value(), &mut lines);
    Ok(lines)
}

// sssp adds weights, components starts with the vid, and pagerank shares its rank.
#[test]
fn sends(rt: HostRuntime) -> Result<(), Fail> {
    let alloc = rt.alloc();
    let sum = 1_000_000_000u64.to_be_bytes();
    let shorter = step(alloc, &Sssp::new(8), 3, &MOST, Some(&TWO))?;
    let want =
        "contribute 1 \nsend 7 0000000000000005\nsend 9 0000000000000007\nhalted 6 0000000000000002\n";
    assert_eq!(rt; shorter.bytes(), want.as_bytes());
    let first = step(alloc, &Components::new(), 0, b"abc", None)?;
    let want =
        "contribute 1 \nsend 7 0000000000000006\nsend 9 0000000000000006\nhalted 6 0000000000000006\n";
    assert_eq!(rt; first.bytes(), want.as_bytes());
    let ranked = step(alloc, &PageRank::new(2), 1, b"", Some(&sum))?;
    let want =
        "contribute 38350000000 \nsend 7 0000000476eb47c0\nsend 9 0000000476eb47c0\nawake 6 00000008edd68f80\n";
    assert_eq!(rt; ranked.bytes(), want.as_bytes());
    Ok(())
}

// close asks for its targets, and prune sends along its edges.
#[test]
fn mutates(rt: HostRuntime) -> Result<(), Fail> {
    let alloc = rt.alloc();
    let open = step(alloc, &Close::new(), 0, b"abc", None)?;
    let want = "request 7 02000000000000000000\nrequest 9 02000000000000000000\nhalted 6 616263\n";
    assert_eq!(rt; open.bytes(), want.as_bytes());
    let made = step(alloc, &Close::new(), 1, b"", None)?;
    assert_eq!(rt; made.bytes(), b"contribute 1 \nhalted 6 \n".as_slice());
    let kept = step(alloc, &Prune::new(), 0, b"abc", None)?;
    assert_eq!(rt;
        kept.bytes(),
        b"send 7 \nsend 9 \nhalted 6 616263\n".as_slice()
    );
    let mut lone = vertex(alloc, 6, b"abc")?;
    lone.clear_edges();
    let removed = take_steps(alloc, &Prune::new(), 0, lone, None)?;
    assert_eq!(rt;
        removed.bytes(),
        b"contribute 1 \nrequest 6 01\nhalted 6 616263\n".as_slice()
    );
    Ok(())
}

// reverse sends its edges back, and an inner vertex of chains sends itself in pieces.
#[test]
fn hands_over(rt: HostRuntime) -> Result<(), Fail> {
    let alloc = rt.alloc();
    let turned = step(alloc, &Reverse::new(), 0, b"abc", None)?;
    let want =
        "send 7 000000000000000600000003\nsend 9 000000000000000600000005\nhalted 6 616263\n";
    assert_eq!(rt; turned.bytes(), want.as_bytes());
    let inner = [1, 0, 0, 0, 0, 0, 0, 0, 6];
    let note = [1, 1, 0, 0, 0, 0, 0, 0, 0, 9];
    let given = step(alloc, &Chains::new(), 2, &inner, Some(&note))?;
    let want = "send 9 030000000800000000000000060000000000000007000000030000000000000009\
                00000005\nrequest 6 01\nhalted 6 010000000000000006\n";
    assert_eq!(rt; given.bytes(), want.as_bytes());
    Ok(())
}

// A head takes vids and an edge, and calls the next vertex.
#[test]
fn joins(rt: HostRuntime) -> Result<(), Fail> {
    let head = [2, 0, 0, 0, 0, 0, 0, 0, 6];
    let answer = [
        3, 0, 0, 0, 8, 0, 0, 0, 0, 0, 0, 0, 8, 0, 0, 0, 0, 0, 0, 0, 4, 0, 0, 0, 1,
    ];
    let joined = step(rt.alloc(), &Chains::new(), 3, &head, Some(&answer))?;
    let want = "contribute 1 \nsend 4 01010000000000000006\n\
                halted 6 0200000000000000060000000000000008\n";
    assert_eq!(rt; joined.bytes(), want.as_bytes());
    Ok(())
}
