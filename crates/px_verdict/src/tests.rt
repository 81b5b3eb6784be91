// Merges and settlements of a few verdicts.
use crate::{DELETE, INSERT_FRESH, PlainVerdict, settle};
use px_frames::{Buf, Frame, Wide};
use px_program::{Merge, Settled};
use px_record::VertexBuf;
use std::test::Fail;

const ROOM: u32 = 112;

// Both of the requests.
const REPLACE: [u8; 10] = [3, 0, 0, 0, 0, 0, 0, 0, 0, 0];

// Inserts of a halted vertex, of one with the value 7, and of one with the value 9.
const HALTED: [u8; 10] = [2, 1, 0, 0, 0, 0, 0, 0, 0, 0];

const SEVEN: [u8; 11] = [2, 0, 0, 0, 0, 1, 0, 0, 0, 0, 7];

const NINE: [u8; 11] = [2, 0, 0, 0, 0, 1, 0, 0, 0, 0, 9];

#[test]
fn merges(rt: HostRuntime) -> Result<(), Fail> {
    let cases: [[&[u8]; 3]; 7] = [
        [&DELETE, &DELETE, &DELETE],
        [&DELETE, &INSERT_FRESH, &REPLACE],
        [&INSERT_FRESH, &DELETE, &REPLACE],
        [&INSERT_FRESH, &REPLACE, &REPLACE],
        [&INSERT_FRESH, &HALTED, &HALTED],
        [&SEVEN, &HALTED, &SEVEN],
        [&SEVEN, &NINE, &NINE],
    ];
    let mut buf = Buf::over(Frame::new(rt.alloc(), 256)?, ROOM);
    for [a, b, want] in cases {
        assert_eq!(rt; buf.set(a), Ok(()));
        assert_eq!(rt; PlainVerdict.merge_into(&mut buf, b), Ok(()));
        assert_eq!(rt; buf.bytes(), want);
    }
    Ok(())
}

#[test]
fn longer_body_has_no_room(rt: HostRuntime) -> Result<(), Fail> {
    let mut buf = Buf::over(Frame::new(rt.alloc(), 256)?, 10);
    assert_eq!(rt; buf.set(&INSERT_FRESH), Ok(()));
    assert_eq!(rt; PlainVerdict.merge_into(&mut buf, &SEVEN), Err(Wide));
    assert_eq!(rt; buf.bytes(), INSERT_FRESH.as_slice());
    Ok(())
}

#[test]
fn settles(rt: HostRuntime) -> Result<(), Fail> {
    let cases: [(bool, &[u8], Settled, &[u8]); 7] = [
        (true, &DELETE, Settled::Remove, b"old"),
        (false, &DELETE, Settled::Remove, b""),
        (true, &INSERT_FRESH, Settled::Keep, b"old"),
        (false, &INSERT_FRESH, Settled::Set, b""),
        (true, &REPLACE, Settled::Set, b""),
        (true, &NINE, Settled::Keep, b"old"),
        (false, &NINE, Settled::Set, b"\x09"),
    ];
    let mut v = VertexBuf::over(Frame::new(rt.alloc(), 256)?, ROOM);
    for (existing, verdict, want, value) in cases {
        v.reset(5);
        if existing {
            assert_eq!(rt; v.set_value(b"old"), Ok(()));
        }
        assert_eq!(rt; settle(existing, &mut v, verdict), Ok(want));
        assert_eq!(rt; v.vid(), 5);
        assert_eq!(rt; v.value(), value);
    }
    Ok(())
}

#[test]
fn wide_body_is_refused(rt: HostRuntime) -> Result<(), Fail> {
    let mut wide = [0; 101];
    wide[0] = 2;
    wide[5] = 91;
    let mut v = VertexBuf::over(Frame::new(rt.alloc(), 256)?, ROOM);
    v.reset(5);
    assert_eq!(rt; settle(false, &mut v, &wide), Err(Wide));
    assert_eq!(rt; settle(true, &mut v, &wide), Ok(Settled::Keep));
    assert!(rt; v.value().is_empty());
    Ok(())
}
