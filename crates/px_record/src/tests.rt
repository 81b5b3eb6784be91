ghost use Rattle.std.specs.Prelude.{◌≡◌, [], ◌∷◌, true, length};

use crate::VertexBuf;
use px_frames::{Frame, Wide};
use std::test::Fail;

// The body of vertex 1: it hasn't halted, has no value, and has one edge to 2 of weight 1.
const EXAMPLE: [u8; 21] = [
    0, 0, 0, 0, 0, 0, 0, 0, 1, 0, 0, 0, 0, 0, 0, 0, 2, 0, 0, 0, 1,
];

// What calls in a row leave in a frame of 256 bytes, as actual lists.
fn two_edges(frame: Frame) -> VertexBuf
    requires { length frame ≡ 256 }
    ensures vid { result.vid ≡ 1 }
    ensures halt { result.vertex.halt ≡ true }
    ensures value { result.vertex.value ≡ 97 ∷ [] }
    ensures edges { result.vertex.edges ≡ (2, 1) ∷ (3, 40) ∷ [] }
{
    let mut vertex = VertexBuf::over(frame, 112);
    vertex.reset(1);
    vertex.push_edge(2, 1).unwrap();
    vertex.push_edge(3, 40).unwrap();
    vertex.set_value(b"a").unwrap();
    vertex.set_halt(true);
    vertex
}

#[test]
fn writes_the_example(rt: HostRuntime) -> Result<(), Fail> {
    let mut vertex = VertexBuf::over(Frame::new(rt.alloc(), 256)?, 112);
    vertex.reset(1);
    assert_eq!(rt; vertex.push_edge(2, 1), Ok(()));
    assert_eq!(rt; vertex.body(), EXAMPLE.as_slice());
    let _frame = vertex.close();
    Ok(())
}

#[test]
fn edges_stand_in_order(rt: HostRuntime) -> Result<(), Fail> {
    let vertex = two_edges(Frame::new(rt.alloc(), 256)?);
    let want = b"\x01\0\0\0\x01\0\0\0\x02a\0\0\0\0\0\0\0\x02\0\0\0\x01\0\0\0\0\0\0\0\x03\0\0\0\x28";
    assert_eq!(rt; vertex.body(), want.as_slice());
    Ok(())
}

#[test]
fn edges_are_taken_over(rt: HostRuntime) -> Result<(), Fail> {
    let from = two_edges(Frame::new(rt.alloc(), 256)?);
    let mut to = VertexBuf::over(Frame::new(rt.alloc(), 256)?, 112);
    assert!(rt; to.load(1, &EXAMPLE));
    assert_eq!(rt; to.set_value(b"a"), Ok(()));
    to.set_halt(true);
    let edges = from.edge_bytes();
    if edges.len() % 12 == 0 {
        assert_eq!(rt; to.set_edges(edges), Ok(()));
    }
    assert_eq!(rt; to.body(), from.body());
    Ok(())
}

#[test]
fn reads_the_example(rt: HostRuntime) -> Result<(), Fail> {
    let mut vertex = VertexBuf::over(Frame::new(rt.alloc(), 256)?, 112);
    assert!(rt; vertex.load(1, &EXAMPLE));
    assert_eq!(rt; vertex.vid(), 1);
    assert!(rt; !vertex.halt());
    assert!(rt; vertex.value().is_empty());
    assert_eq!(rt; vertex.edges(), 1);
    if vertex.edges() == 1 {
        assert_eq!(rt; vertex.edge(0), (2, 1));
    }
    Ok(())
}

#[test]
fn value_moves_the_edges(rt: HostRuntime) -> Result<(), Fail> {
    let mut vertex = VertexBuf::over(Frame::new(rt.alloc(), 256)?, 112);
    assert!(rt; vertex.load(1, &EXAMPLE));
    assert_eq!(rt; vertex.set_value(b"abc"), Ok(()));
    assert_eq!(rt; vertex.append_value(b"de"), Ok(()));
    if !vertex.value().is_empty() {
        vertex.set_first(b'A');
    }
    vertex.set_halt(true);
    let want = b"\x01\0\0\0\x05\0\0\0\x01Abcde\0\0\0\0\0\0\0\x02\0\0\0\x01";
    assert_eq!(rt; vertex.body(), want.as_slice());
    vertex.clear_edges();
    assert_eq!(rt; vertex.body(), b"\x01\0\0\0\x05\0\0\0\0Abcde".as_slice());
    Ok(())
}

#[test]
fn seven_edges_fit_the_smallest_frame(rt: HostRuntime) -> Result<(), Fail> {
    let mut vertex = VertexBuf::over(Frame::new(rt.alloc(), 256)?, 112);
    for dst in 0..7 {
        assert_eq!(rt; vertex.push_edge(dst, 1), Ok(()));
    }
    assert_eq!(rt; vertex.push_edge(7, 1), Err(Wide));
    assert_eq!(rt; vertex.set_value(&[7; 6]), Ok(()));
    assert_eq!(rt; vertex.append_value(&[8]), Err(Wide));
    assert_eq!(rt; vertex.body().len(), 9 + 6 + 7 * 12);
    Ok(())
}

#[test]
fn other_bytes_are_no_body(rt: HostRuntime) -> Result<(), Fail> {
    let mut vertex = VertexBuf::over(Frame::new(rt.alloc(), 256)?, 112);
    let bodies: [&[u8]; 5] = [
        b"",
        b"\0\0\0\0\0\0\0\0",
        b"\x02\0\0\0\0\0\0\0\0",
        b"\0\0\0\0\0\0\0\0\0\0",
        b"\0\xff\xff\xff\xff\0\0\0\0",
    ];
    for body in bodies {
        assert!(rt; !vertex.load(1, body));
    }
    assert_eq!(rt; vertex.vid(), 0);
    Ok(())
}
