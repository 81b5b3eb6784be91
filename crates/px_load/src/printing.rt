// The output text, from the files of the partitions.
ghost use Rattle.std.specs.Prelude.{◌≡◌, ◌≤◌, ◌<◌, ◌+◌, ◌++◌, [], ℕ, List, length, flat_map, true, IsTrue, IsFalse, OnOk, IfOk, IfErr};
ghost use Rattle.px_core.specs.Shown.{Shown, Clean, NoFile};
ghost use Rattle.px_frames.specs.Buffer as buffer;
ghost use Rattle.px_meaning.specs.Graph.{Graph, IsMap, room_of};
ghost use Rattle.px_meaning.specs.OutputText.{vertex_line, summary_line};
ghost use Rattle.px_store.specs.Desks.{SameRoom};
ghost use Rattle.px_load.specs.Dumping.{DumpStops, SomeOf, SomeMore};
ghost use Rattle.px_load.specs.Frames.{AreLoadFrames, SameLoadFrames};
ghost use Rattle.px_load.specs.Framed.{IsPut};
ghost use Rattle.px_load.specs.Heads.{AreLooked, GiveParts, AreReaders, Begins, all_left};
ghost use Rattle.px_load.specs.Printing.{NextPrinted, written_text};
ghost use Rattle.px_load.specs.Scanning.{HoldFiles};

use crate::framed::{Framed, Lent};
use crate::frames::LoadFrames;
use crate::heads::{PartReader, close_all, least, look_all, open_all, take_at};
use crate::stops::DumpStop;
use px_connectors::MOST_PARTS;
use px_core::{Disk, Failed, Sink};
use px_frames::{Buf, Frame};
use px_global_state::Gs;
use px_program::{Program, print_summary, print_vertex};
use px_record::VertexBuf;
use std::marker::{Brand, PhantomData};

// Prints the vertex that has the least vid of those that the readers still give. It is false where none is left.
fn print_next<P: Program, SD: Disk, W: Sink>(
    program: &P,
    scratch: &mut SD,
    readers: &mut [PartReader],
    body: &mut Buf,
    v: &mut VertexBuf,
    out: &mut W,
) -> Result<bool, DumpStop>
    requires some { 1 ≤ length readers.old }
    requires most { length readers.old ≤ 16 }
    requires are { AreReaders (SD.shown scratch.old).page_len readers.old }
    requires limit { 13 + body.old.limit ≡ room_of (SD.shown scratch.old).page_len }
    ensures printed { IfOk result (λ more. (g : Graph) → IsMap g → AreLooked (SD.shown scratch.old) v.old.room readers.old g
        → NextPrinted (vertex_line (P.meaning program.now)) more g (AreLooked (SD.shown scratch.new) v.old.room readers.new) (λ text. (h : List ℕ) → W.holds out.old h → W.holds out.new (h ++ text))) }
    ensures part { IfErr result (λ e. (g : Graph) (h : List ℕ) → IsMap g → AreLooked (SD.shown scratch.old) v.old.room readers.old g
        → W.holds out.old h → SomeOf (flat_map (vertex_line (P.meaning program.now)) g) (λ text. W.holds out.new (h ++ text))) }
    ensures more { (h : List ℕ) → W.holds out.old h → SomeMore h (W.holds out.new) }
    ensures falls { IfOk result (λ more. IsTrue more → all_left readers.new < all_left readers.old) }
    ensures ok { OnOk result (Clean NoFile (SD.shown scratch.old) (SD.shown scratch.new)) }
    ensures no_fault { OnOk result (W.faults out.new ≡ W.faults out.old) }
    ensures err { IfErr result (λ e. (graph : Shown) → DumpStops (W.faults out.old) (W.faults out.new) graph graph (SD.shown scratch.old) (SD.shown scratch.new) e) }
    ensures are { AreReaders (SD.shown scratch.old).page_len readers.new }
    ensures count { length readers.new ≡ length readers.old }
    ensures body { buffer.SameRoom body.old body.new }
    ensures vertex { SameRoom v.old v.new }
{
    let Some((q, _)) = least(readers) else {
        return Ok(false);
    };
    if !take_at(scratch, readers, q, body, v)? {
        return Ok(false);
    }
    print_vertex(program, v, out)?;
    Ok(true)
}

// Prints all vertices that the readers still give, in the order of their vids.
fn print_merged<P: Program, SD: Disk, W: Sink>(
    program: &P,
    scratch: &mut SD,
    readers: &mut [PartReader],
    body: &mut Buf,
    v: &mut VertexBuf,
    out: &mut W,
) -> Result<(), DumpStop>
    requires some { 1 ≤ length readers.old }
    requires most { length readers.old ≤ 16 }
    requires are { AreReaders (SD.shown scratch.old).page_len readers.old }
    requires limit { 13 + body.old.limit ≡ room_of (SD.shown scratch.old).page_len }
    ensures printed { OnOk result ((g : Graph) (h : List ℕ) → IsMap g → AreLooked (SD.shown scratch.old) v.old.room readers.old g
        → W.holds out.old h → W.holds out.new (h ++ flat_map (vertex_line (P.meaning program.now)) g)) }
    ensures part { IfErr result (λ e. (g : Graph) (h : List ℕ) → IsMap g → AreLooked (SD.shown scratch.old) v.old.room readers.old g
        → W.holds out.old h → SomeOf (flat_map (vertex_line (P.meaning program.now)) g) (λ text. W.holds out.new (h ++ text))) }
    ensures more { (h : List ℕ) → W.holds out.old h → SomeMore h (W.holds out.new) }
    ensures ok { OnOk result (Clean NoFile (SD.shown scratch.old) (SD.shown scratch.new)) }
    ensures no_fault { OnOk result (W.faults out.new ≡ W.faults out.old) }
    ensures err { IfErr result (λ e. (graph : Shown) → DumpStops (W.faults out.old) (W.faults out.new) graph graph (SD.shown scratch.old) (SD.shown scratch.new) e) }
    ensures are { AreReaders (SD.shown scratch.old).page_len readers.new }
    ensures count { length readers.new ≡ length readers.old }
    ensures body { buffer.SameRoom body.old body.new }
    ensures vertex { SameRoom v.old v.new }
{
    while print_next(program, scratch, readers, body, v, out)? {}
    Ok(())
}

// Prints the vertices that the readers give, in the order of their vids, and then the last line.
fn print_all<P: Program, SD: Disk, W: Sink>(
    program: &P,
    gs: &Gs,
    scratch: &mut SD,
    readers: &mut [PartReader],
    body: &mut Buf,
    v: &mut VertexBuf,
    out: &mut W,
) -> Result<(), DumpStop>
    requires some { 1 ≤ length readers.old }
    requires most { length readers.old ≤ 16 }
    requires are { AreReaders (SD.shown scratch.old).page_len readers.old }
    requires limit { 13 + body.old.limit ≡ room_of (SD.shown scratch.old).page_len }
    ensures printed { OnOk result ((g : Graph) (h : List ℕ) → IsMap g → GiveParts (SD.shown scratch.old) v.old.room readers.old g
        → W.holds out.old h → W.holds out.new (h ++ written_text (P.meaning program.now) gs.now g)) }
    ensures part { IfErr result (λ e. (g : Graph) (h : List ℕ) → IsMap g → GiveParts (SD.shown scratch.old) v.old.room readers.old g
        → W.holds out.old h → SomeOf (written_text (P.meaning program.now) gs.now g) (λ text. W.holds out.new (h ++ text))) }
    ensures more { (h : List ℕ) → W.holds out.old h → SomeMore h (W.holds out.new) }
    ensures ok { OnOk result (Clean NoFile (SD.shown scratch.old) (SD.shown scratch.new)) }
    ensures no_fault { OnOk result (W.faults out.new ≡ W.faults out.old) }
    ensures err { IfErr result (λ e. (graph : Shown) → DumpStops (W.faults out.old) (W.faults out.new) graph graph (SD.shown scratch.old) (SD.shown scratch.new) e) }
    ensures are { AreReaders (SD.shown scratch.old).page_len readers.new }
    ensures count { length readers.new ≡ length readers.old }
    ensures body { buffer.SameRoom body.old body.new }
    ensures vertex { SameRoom v.old v.new }
{
    look_all(scratch, readers)?;
    print_merged(program, scratch, readers, body, v, out)?;
    print_summary(gs.superstep, gs.aggregate, gs.count, out)?;
    Ok(())
}

impl<W: Sink, K: Lent> Framed<'_, '_, W, K> {
    // Prints the vertices that the readers give, in the order of their vids, and then the last line.
    fn print<P: Program, SD: Disk>(
        &mut self,
        program: &P,
        gs: &Gs,
        scratch: &mut SD,
        readers: &mut [PartReader],
        body: &mut Buf,
        v: &mut VertexBuf,
    ) -> Result<(), DumpStop>
        requires first { IsPut K.began (W.holds self.old.out.now) self.old.frame.now self.old.from self.old.to [] }
        requires some { 1 ≤ length readers.old }
        requires most { length readers.old ≤ 16 }
        requires are { AreReaders (SD.shown scratch.old).page_len readers.old }
        requires limit { 13 + body.old.limit ≡ room_of (SD.shown scratch.old).page_len }
        ensures printed { OnOk result ((g : Graph) → IsMap g → GiveParts (SD.shown scratch.old) v.old.room readers.old g
            → IsPut K.began (W.holds self.new.out.now) self.new.frame.now self.new.from self.new.to (written_text (P.meaning program.now) gs.now g)) }
        ensures part { IfErr result (λ e. (g : Graph) → IsMap g → GiveParts (SD.shown scratch.old) v.old.room readers.old g
            → SomeOf (written_text (P.meaning program.now) gs.now g) (IsPut K.began (W.holds self.new.out.now) self.new.frame.now self.new.from self.new.to)) }
        ensures more { SomeMore [] (IsPut K.began (W.holds self.new.out.now) self.new.frame.now self.new.from self.new.to) }
        ensures lends { self.new.out.ghost_name ≡ self.old.out.ghost_name }
        ensures fills { self.new.frame.ghost_name ≡ self.old.frame.ghost_name }
        ensures ok { OnOk result (Clean NoFile (SD.shown scratch.old) (SD.shown scratch.new)) }
        ensures no_fault { OnOk result (W.faults self.new.out.now ≡ W.faults self.old.out.now) }
        ensures err { IfErr result (λ e. (graph : Shown) → DumpStops (W.faults self.old.out.now) (W.faults self.new.out.now) graph graph (SD.shown scratch.old) (SD.shown scratch.new) e) }
        ensures are { AreReaders (SD.shown scratch.old).page_len readers.new }
        ensures count { length readers.new ≡ length readers.old }
        ensures body { buffer.SameRoom body.old body.new }
        ensures vertex { SameRoom v.old v.new }
    {
        print_all(program, gs, scratch, readers, body, v, self)?;
        Ok(())
    }
}

// Prints through a frame: the sink gets it whenever it is full, and the rest at the end.
fn print_framed<P: Program, SD: Disk, W: Sink, K: Lent>(
    program: &P,
    gs: &Gs,
    scratch: &mut SD,
    readers: &mut [PartReader],
    body: &mut Buf,
    v: &mut VertexBuf,
    frame: &mut Frame,
    out: &mut W,
) -> Result<(), DumpStop>
    requires began { (h : List ℕ) → K.began h → W.holds out.old h }
    requires len { length frame.old ≡ K.len }
    requires bytes { 0 < length frame.old }
    requires some { 1 ≤ length readers.old }
    requires most { length readers.old ≤ 16 }
    requires are { AreReaders (SD.shown scratch.old).page_len readers.old }
    requires limit { 13 + body.old.limit ≡ room_of (SD.shown scratch.old).page_len }
    ensures printed { OnOk result ((g : Graph) (h : List ℕ) → IsMap g → GiveParts (SD.shown scratch.old) v.old.room readers.old g
        → K.began h → W.holds out.new (h ++ written_text (P.meaning program.now) gs.now g)) }
    ensures part { IfErr result (λ e. (g : Graph) (h : List ℕ) → IsMap g → GiveParts (SD.shown scratch.old) v.old.room readers.old g
        → K.began h → SomeOf (written_text (P.meaning program.now) gs.now g) (λ text. W.holds out.new (h ++ text))) }
    ensures ok { OnOk result (Clean NoFile (SD.shown scratch.old) (SD.shown scratch.new)) }
    ensures no_fault { OnOk result (W.faults out.new ≡ W.faults out.old) }
    ensures err { IfErr result (λ e. (graph : Shown) → DumpStops (W.faults out.old) (W.faults out.new) graph graph (SD.shown scratch.old) (SD.shown scratch.new) e) }
    ensures are { AreReaders (SD.shown scratch.old).page_len readers.new }
    ensures count { length readers.new ≡ length readers.old }
    ensures body { buffer.SameRoom body.old body.new }
    ensures vertex { SameRoom v.old v.new }
    ensures len { length frame.new ≡ K.len }
{
    let mut lines = Framed::<W, K> {
        frame,
        out,
        from: 0,
        to: 0,
        of: PhantomData,
    };
    let printed = lines.print(program, gs, scratch, readers, body, v);
    lines.end(printed)?;
    Ok(())
}

/// Prints the vertices of the partitions' files, of which the numbers of pages are given, and then the last line.
pub(crate) fn print_files<P: Program, SD: Disk, W: Sink>(
    program: &P,
    gs: &Gs,
    pages: &[u64; MOST_PARTS],
    parts: u32,
    frames: &mut LoadFrames,
    scratch: &mut SD,
    out: &mut W,
) -> Result<(), DumpStop>
    requires some { 1 ≤ parts }
    requires most { parts ≤ 16 }
    requires frames { AreLoadFrames frames.old parts (SD.shown scratch.old).page_len }
    ensures printed { OnOk result ((g : Graph) (h : List ℕ) → IsMap g → HoldFiles (SD.shown scratch.old) frames.old.vertex.room parts parts pages.now g
        → W.holds out.old h → W.holds out.new (h ++ written_text (P.meaning program.now) gs.now g)) }
    ensures part { IfErr result (λ e. (g : Graph) (h : List ℕ) → IsMap g → HoldFiles (SD.shown scratch.old) frames.old.vertex.room parts parts pages.now g
        → W.holds out.old h → SomeOf (written_text (P.meaning program.now) gs.now g) (λ text. W.holds out.new (h ++ text))) }
    ensures ok { OnOk result (Clean NoFile (SD.shown scratch.old) (SD.shown scratch.new)) }
    ensures no_fault { OnOk result (W.faults out.new ≡ W.faults out.old) }
    ensures err { IfErr result (λ e. (graph : Shown) → DumpStops (W.faults out.old) (W.faults out.new) graph graph (SD.shown scratch.old) (SD.shown scratch.new) e) }
    ensures frames { SameLoadFrames frames.old frames.new }
{
    let Some(mut frame) = frames.text.take() else {
        unreachable!();
    };
    let mut readers = open_all(&mut frames.outs, pages, parts);
    let answer = print_framed::<P, SD, W, Brand>(
        program,
        gs,
        scratch,
        &mut readers,
        &mut frames.body,
        &mut frames.vertex,
        &mut frame,
        out,
    );
    close_all(readers, &mut frames.outs);
    frames.text = Some(frame);
    answer?;
    Ok(())
}
