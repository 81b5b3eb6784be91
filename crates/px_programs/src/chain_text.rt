// The printed form of vids that stand in bytes.
ghost use Rattle.std.specs.Prelude.{◌≡◌, ◌≤◌, ◌+◌, ◌*◌, ◌/◌, ◌++◌, ℕ, List, length, take, slice_get, Some, OnOk, OnErr, flat_map};
ghost use Rattle.px_core.specs.Counts.{Rose};
ghost use Rattle.px_programs.specs.Chains.{vids_in, plus_text, joined_text};

use byteorder::{BigEndian, ByteOrder};
use px_core::{Failed, Sink, Vid, write_all};
use px_program::{line_with, print_decimal, push_decimal};

// The vid at a place.
fn vid_at(vids: &[u8], at: usize) -> Vid
    requires { 8 * (at + 1) ≤ length vids.now }
    ensures { slice_get (vids_in (length vids.now / 8) vids.now) at ≡ Some result }
{
    BigEndian::read_u64(&vids[8 * at..])
}

// A plus sign and a vid.
fn print_next<W: Sink>(vid: Vid, sink: &mut W) -> Result<(), Failed>
    ensures ok { OnOk result ((h : List ℕ) → W.holds sink.old h → W.holds sink.new (h ++ plus_text vid)) }
    ensures err { OnErr result ((h : List ℕ) → W.holds sink.old h → (n : ℕ) × W.holds sink.new (h ++ take n (plus_text vid))) }
    ensures cause { OnErr result (Rose (W.faults sink.old) (W.faults sink.new)) }
    ensures no_fault { OnOk result (W.faults sink.new ≡ W.faults sink.old) }
{
    let mut line = line_with("+");
    push_decimal(&mut line, vid);
    write_all(sink, line.as_bytes())
}

// A plus sign before each of the vids.
fn print_more<W: Sink>(vids: &[u8], sink: &mut W) -> Result<(), Failed>
    ensures ok { OnOk result ((h : List ℕ) → W.holds sink.old h → W.holds sink.new (h ++ flat_map plus_text (vids_in (length vids.now / 8) vids.now))) }
    ensures err { OnErr result ((h : List ℕ) → W.holds sink.old h → (n : ℕ) × W.holds sink.new (h ++ take n (flat_map plus_text (vids_in (length vids.now / 8) vids.now)))) }
    ensures cause { OnErr result (Rose (W.faults sink.old) (W.faults sink.new)) }
    ensures no_fault { OnOk result (W.faults sink.new ≡ W.faults sink.old) }
{
    for i in 0..vids.len() / 8 {
        print_next(vid_at(vids, i), sink)?;
    }
    Ok(())
}

/// Writes vids in decimal, with a plus sign between two.
pub(crate) fn print_vids<W: Sink>(vids: &[u8], sink: &mut W) -> Result<(), Failed>
    requires { 8 ≤ length vids.now }
    ensures ok { OnOk result ((h : List ℕ) → W.holds sink.old h → W.holds sink.new (h ++ joined_text (vids_in (length vids.now / 8) vids.now))) }
    ensures err { OnErr result ((h : List ℕ) → W.holds sink.old h → (n : ℕ) × W.holds sink.new (h ++ take n (joined_text (vids_in (length vids.now / 8) vids.now)))) }
    ensures cause { OnErr result (Rose (W.faults sink.old) (W.faults sink.new)) }
    ensures no_fault { OnOk result (W.faults sink.new ≡ W.faults sink.old) }
{
    let (_, more) = vids.split_at(8);
    print_decimal(vid_at(vids, 0), sink)?;
    print_more(more, sink)
}
