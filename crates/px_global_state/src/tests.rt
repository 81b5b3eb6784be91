// When a run has halted, and what parts join to.
ghost use Rattle.px_global_state.specs.Least.{least, least_laws};

use crate::{Gs, Part, join_parts, no_part};
use px_core::{Failed, Sink, Stop};
use px_frames::Wide;
use px_program::{At, Outbox, Program, Settled};
use px_record::VertexBuf;
use px_verdict::PlainVerdict;

// A program whose aggregate is the least of what is contributed, and the greatest number where nothing is.
#[derive(Clone, Copy, Debug, PartialEq, Eq)]
struct Least {
    verdict: PlainVerdict,
}

impl Program for Least {
    type Message = PlainVerdict;

    type Verdict = PlainVerdict;

    ghost meaning = { λ p. least };

    ghost laws = { λ p. least_laws };

    fn message(&self) -> &PlainVerdict {
        &self.verdict
    }

    fn verdict(&self) -> &PlainVerdict {
        &self.verdict
    }

    fn compute<O: Outbox>(
        &self,
        _at: &At,
        v: &mut VertexBuf,
        _msg: Option<&[u8]>,
        _out: &mut O,
    ) -> Result<(), Stop> {
        // What is read of it tells that it is within its room.
        let _value = v.value();
        v.set_halt(true);
        Ok(())
    }

    fn settle(
        &self,
        _existing: bool,
        _v: &mut VertexBuf,
        _verdict: &[u8],
    ) -> Result<Settled, Wide> {
        Ok(Settled::Keep)
    }

    fn unit(&self) -> u64 {
        u64::MAX
    }

    fn join(&self, a: u64, b: u64) -> u64 {
        a.min(b)
    }

    fn print_value<W: Sink>(&self, _v: &VertexBuf, _sink: &mut W) -> Result<(), Failed> {
        Ok(())
    }
}

#[test]
fn a_state_has_halted_where_none_is_live_and_nothing_in_flight(rt: HostRuntime) {
    let cases = [(0, 0, true), (1, 0, false), (0, 1, false), (1, 1, false)];
    for (live, in_flight, halted) in cases {
        let gs = Gs {
            live,
            in_flight,
            ..Gs::first(7, 3)
        };
        assert_eq!(rt; gs.halted(), halted);
    }
    assert!(rt; Gs::first(7, 0).halted());
    assert!(rt; !Gs::first(7, 1).halted());
}

#[test]
fn a_part_joined_with_none_is_the_part(rt: HostRuntime) {
    let program = Least {
        verdict: PlainVerdict,
    };
    let none = no_part(&program);
    assert_eq!(rt;
        (none.sends, none.requests, none.contributed),
        (0, 0, u64::MAX)
    );
    let part = Part {
        sends: 3,
        requests: 1,
        contributed: 7,
    };
    assert_eq!(rt; join_parts(&program, &none, &part), part);
    assert_eq!(rt; join_parts(&program, &part, &none), part);
    let other = Part {
        sends: 2,
        requests: 5,
        contributed: 4,
    };
    let both = Part {
        sends: 5,
        requests: 6,
        contributed: 4,
    };
    assert_eq!(rt; join_parts(&program, &part, &other), both);
    assert_eq!(rt; join_parts(&program, &other, &part), both);
}
