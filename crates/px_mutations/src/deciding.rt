// A program of the tests, whose verdicts say what becomes of vids.
ghost use Rattle.std.specs.Prelude.{◌≡◌, ◌↔◌, slice_index, IfOk, OnErr, IsErr, IsTrue};
ghost use Rattle.px_meaning.specs.Program.{Sets};
ghost use Rattle.px_meaning.specs.Step.{is_wide};
ghost use Rattle.px_program.specs.Calls.{Applies};
ghost use Rattle.px_mutations.specs.Deciding.{deciding, deciding_laws};

use px_core::{Failed, Sink, Stop};
use px_frames::Wide;
use px_program::{At, Outbox, Program, Settled};
use px_programs::Lesser;
use px_record::VertexBuf;
use px_verdict::PlainVerdict;

// The first byte of a verdict, or 0 where it has none.
fn kind_of(verdict: &[u8]) -> u8
    ensures { result ≡ slice_index verdict.now 0 }
{
    if verdict.is_empty() {
        return 0;
    }
    verdict[0]
}

fn set_value(v: &mut VertexBuf, value: &[u8]) -> Result<Settled, Wide>
    ensures ok { IfOk result (λ settled. Applies (Sets (record v.old.vertex { value = value.now })) settled v.old v.new) }
    ensures wide { IsErr result ↔ IsTrue (is_wide v.old.room (record v.old.vertex { value = value.now })) }
    ensures same { OnErr result (v.new ≡ v.old) }
{
    v.set_value(value)?;
    Ok(Settled::Set)
}

#[derive(Clone, Copy, Debug, PartialEq, Eq)]
pub struct Deciding {
    pub plain: PlainVerdict,
    pub lesser: Lesser,
}

impl Program for Deciding {
    type Message = PlainVerdict;

    type Verdict = Lesser;

    ghost meaning = { λ p. deciding };

    ghost laws = { λ p. deciding_laws };

    fn message(&self) -> &PlainVerdict {
        &self.plain
    }

    fn verdict(&self) -> &Lesser {
        &self.lesser
    }

    fn compute<O: Outbox>(
        &self,
        _at: &At,
        v: &mut VertexBuf,
        _msg: Option<&[u8]>,
        _out: &mut O,
    ) -> Result<(), Stop> {
        // What is read of it tells that it is within its room.
        let _value = v.value();
        v.set_halt(true);
        Ok(())
    }

    fn settle(&self, _existing: bool, v: &mut VertexBuf, verdict: &[u8]) -> Result<Settled, Wide> {
        let kind = kind_of(verdict);
        if kind == 1 {
            return set_value(v, &[9; 1]);
        }
        if kind == 2 {
            return Ok(Settled::Remove);
        }
        if kind == 3 {
            return set_value(v, &[9; 100]);
        }
        Ok(Settled::Keep)
    }

    fn unit(&self) -> u64 {
        u64::MAX
    }

    fn join(&self, a: u64, b: u64) -> u64 {
        a.min(b)
    }

    fn print_value<W: Sink>(&self, _v: &VertexBuf, _sink: &mut W) -> Result<(), Failed> {
        Ok(())
    }
}
