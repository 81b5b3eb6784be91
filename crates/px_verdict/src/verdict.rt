// The bytes of a verdict:
//
//   kind    1 byte, the sum of 1 to delete the vertex and 2 to insert one
//   body    where a vertex is to be inserted, its bytes as px_record lays them out, and else nothing
ghost use Rattle.std.specs.Prelude.{◌≡◌, ◌↔◌, IsTrue, OnErr, IfOk, IsErr, if◌then◌else◌, Some, None};
ghost use Rattle.px_meaning.specs.Program.{Sets};
ghost use Rattle.px_meaning.specs.Step.{is_wide};
ghost use Rattle.px_program.specs.Calls.{Applies, is_too_wide};
ghost use Rattle.px_record.specs.Body.{is_vertex_body, vertex_of};
ghost use Rattle.px_record.specs.Held.{SameRecord};
ghost use Rattle.px_verdict.specs.Verdict.{kind_of, deletes, inserts, is_verdict, verdict_rule, verdict_laws, settle_of};

use crate::is_longer;
use px_frames::{Buf, Wide};
use px_program::{Merge, Settled};
use px_record::VertexBuf;

/// The request to delete a vertex.
pub const DELETE: [u8; 1] = [1];

/// The request to insert a live vertex without value and edges.
pub const INSERT_FRESH: [u8; 10] = [2, 0, 0, 0, 0, 0, 0, 0, 0, 0];

// What a verdict asks for.
#[derive(Clone, Copy)]
struct Kind {
    delete: bool,
    insert: bool,
}

impl Kind {
    fn of(byte: u8) -> Kind
        ensures delete { result.delete ≡ deletes byte }
        ensures insert { result.insert ≡ inserts byte }
    {
        Kind {
            delete: byte == 1 || byte == 3,
            insert: byte == 2 || byte == 3,
        }
    }

    fn byte(self) -> u8
        ensures { result ≡ kind_of self.delete self.insert }
    {
        u8::from(self.delete) + 2 * u8::from(self.insert)
    }
}

/// Requests to delete a vertex, to insert one, or both: a vid is deleted where any request says so, and of bodies to
/// insert the longest is taken, of equal lengths the greatest in byte order.
#[derive(Clone, Copy, Debug, PartialEq, Eq)]
pub struct PlainVerdict;

impl Merge for PlainVerdict {
    ghost rule = { λ _. verdict_rule };

    ghost laws = { λ _. verdict_laws };

    fn merge_into(&self, buf: &mut Buf, bytes: &[u8]) -> Result<(), Wide> {
        let (Some((first, body)), Some((second, other))) = (
            buf.bytes().split_first(),
            bytes.split_first(),
        ) else {
            return Ok(());
        };
        let (one, two) = (Kind::of(*first), Kind::of(*second));
        let kind = Kind {
            delete: one.delete || two.delete,
            insert: one.insert || two.insert,
        };
        if is_longer(other, body) {
            buf.set(bytes)?;
        }
        buf.bytes_mut()[0] = kind.byte();
        Ok(())
    }
}

/// Decides what a vid's folded verdict does to the vertex in `v`, which is `existing` or else the fresh one: a deletion
/// goes before an insertion, and an insertion alone leaves a vertex that is there.
pub fn settle(existing: bool, v: &mut VertexBuf, verdict: &[u8]) -> Result<Settled, Wide>
    ensures ok { IsTrue (is_verdict verdict.now)
        → IfOk result (λ settled. Applies (settle_of v.old.vid (if existing then Some v.old.vertex else None) verdict.now) settled v.old v.new) }
    ensures wide { IsTrue (is_verdict verdict.now)
        → (IsErr result ↔ IsTrue (is_too_wide v.old.room (settle_of v.old.vid (if existing then Some v.old.vertex else None) verdict.now))) }
    ensures same { OnErr result (v.new ≡ v.old) }
    ensures record_stays { SameRecord v.old v.new }
{
    let Some((first, body)) = verdict.split_first() else {
        return Ok(Settled::Keep);
    };
    let kind = Kind::of(*first);
    if !kind.insert {
        return Ok(Settled::Remove);
    }
    if existing && !kind.delete {
        return Ok(Settled::Keep);
    }
    set(v, body)
}

// Makes it the vertex that a body spells.
#[tactic(auto, using(px_record::proofs::HeldBodies::body_size))]
fn set(v: &mut VertexBuf, body: &[u8]) -> Result<Settled, Wide>
    ensures ok { IsTrue (is_vertex_body body.now) → IfOk result (λ settled. Applies (Sets (vertex_of body.now)) settled v.old v.new) }
    ensures wide { IsTrue (is_vertex_body body.now) → (IsErr result ↔ IsTrue (is_wide v.old.room (vertex_of body.now))) }
    ensures same { OnErr result (v.new ≡ v.old) }
    ensures record_stays { SameRecord v.old v.new }
{
    if v.load(v.vid(), body) {
        Ok(Settled::Set)
    } else {
        Err(Wide)
    }
}
