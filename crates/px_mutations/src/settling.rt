// One vid is settled.
ghost use Rattle.std.specs.Prelude.{◌≡◌, ◌≤◌, ◌<◌, ◌+◌, ◌||◌, ℕ, true, false, OnOk, IfOk, IfErr, IsTrue};
ghost use Rattle.std.specs.Bool.{OnTrue};
ghost use Rattle.px_core.specs.Shown.{Shown, Broke};
ghost use Rattle.px_cache.specs.View.{AnyFile};
ghost use Rattle.px_meaning.specs.Graph.{Graph, fresh, lookup, room_of};
ghost use Rattle.px_program.specs.Calls.{Applies, is_too_wide};
ghost use Rattle.px_record.specs.Held.{SameRecord};
ghost use Rattle.px_store.specs.Desks.{IsReady, IsDone, SameDesk, SameRoom};
ghost use Rattle.px_mutations.specs.Turns.{given_if};
ghost use Rattle.px_mutations.specs.Effects.{left_at, turned, settlement, IsFound, IsEffect, IsTooWide, StopsSettling};

use crate::effects::{Effect, carry_out};
use crate::turns::Turn;
use px_core::{Disk, Stop};
use px_frames::Wide;
use px_program::{Program, Settled};
use px_record::VertexBuf;
use px_store::{Desk, Store};

// Looks the vid of a turn up, and answers whether the store has it. Its vertex comes into `first` where the turn has no update.
fn look_up<St: Store, GD: Disk>(
    turn: Turn,
    store: &mut St,
    desk: &mut Desk,
    graph: &mut GD,
    first: &mut VertexBuf,
    second: &mut VertexBuf,
) -> Result<bool, Stop>
    requires ready { IsReady St.counted (St.part store.old) desk.old (GD.shown graph.old) }
    requires room { first.old.room ≡ room_of (GD.shown graph.old).page_len }
    requires second { second.old.room ≡ room_of (GD.shown graph.old).page_len }
    requires vid { turn.has_update ≡ true → first.old.vid ≡ turn.vid }
    ensures found { IfOk result (λ was. (l : Graph) → St.holds store.old desk.old (GD.shown graph.old) l → IsFound (lookup turn.vid l) (given_if turn.has_update first.old.vertex) was first.new.vertex) }
    ensures fresh { IfOk result (λ was. (turn.has_update || was) ≡ false → first.new.vertex ≡ fresh) }
    ensures vid { OnOk result (first.new.vid ≡ turn.vid) }
    ensures holds { OnOk result ((l : Graph) → St.holds store.old desk.old (GD.shown graph.old) l → St.holds store.new desk.new (GD.shown graph.new) l) }
    ensures leaves { OnTrue St.counted (St.leaves store.new ≡ St.leaves store.old) }
    ensures reads { OnTrue St.counted ((GD.shown graph.new).reads ≤ (GD.shown graph.old).reads + 64) }
    ensures part { St.part store.new ≡ St.part store.old }
    ensures desk { SameDesk desk.old desk.new }
    ensures done { OnOk result (IsDone St.counted (St.part store.old) desk.old (GD.shown graph.old) desk.new (GD.shown graph.new)) }
    ensures err { IfErr result (Broke Stop.Graph AnyFile (GD.shown graph.old) (GD.shown graph.new)) }
    ensures first { SameRoom first.old first.new }
    ensures second_stays { SameRoom second.old second.new }
{
    if turn.has_update {
        return store.get(graph, desk, turn.vid, second);
    }
    store.get(graph, desk, turn.vid, first)
}

// Decides on the vid of a turn, whose vertex is held.
fn judge<P: Program>(
    program: &P,
    turn: Turn,
    was: bool,
    first: &mut VertexBuf,
    verdict: &[u8],
) -> Result<Settled, Stop>
    requires fresh { (turn.has_update || was) ≡ false → first.old.vertex ≡ fresh }
    ensures applies { (turn.has_verdict ≡ true → IsTrue ((P.meaning program.now).verdict.valid verdict.now))
        → IfOk result (λ settled. Applies (settlement (P.meaning program.now) turn (turn.has_update || was) first.old verdict.now) settled first.old first.new) }
    ensures only { IfErr result (λ e. e ≡ Stop.Beyond) }
    ensures wide { (turn.has_verdict ≡ true → IsTrue ((P.meaning program.now).verdict.valid verdict.now))
        → IfErr result (λ e. IsTrue (is_too_wide first.old.room (settlement (P.meaning program.now) turn (turn.has_update || was) first.old verdict.now))) }
    ensures stays { SameRecord first.old first.new }
{
    if !turn.has_verdict {
        return Ok(Settled::Keep);
    }
    match program.settle(turn.has_update || was, first, verdict) {
        Ok(settled) => Ok(settled),
        Err(Wide) => Err(Stop::Beyond),
    }
}

/// Settles the vid of a turn, whose update is in `first` and the fold of whose verdicts is `verdict`, as far as it has them.
pub(crate) fn settle_vid<P: Program, St: Store, GD: Disk>(
    program: &P,
    turn: Turn,
    store: &mut St,
    desk: &mut Desk,
    graph: &mut GD,
    first: &mut VertexBuf,
    second: &mut VertexBuf,
    verdict: &[u8],
) -> Result<Effect, Stop>
    requires ready { IsReady St.counted (St.part store.old) desk.old (GD.shown graph.old) }
    requires room { first.old.room ≡ room_of (GD.shown graph.old).page_len }
    requires second { second.old.room ≡ room_of (GD.shown graph.old).page_len }
    requires vid { turn.has_update ≡ true → first.old.vid ≡ turn.vid }
    ensures holds { (turn.has_verdict ≡ true → IsTrue ((P.meaning program.now).verdict.valid verdict.now))
        → OnOk result ((l : Graph) → St.holds store.old desk.old (GD.shown graph.old) l → St.holds store.new desk.new (GD.shown graph.new) (turned (P.meaning program.now) turn first.old.vertex verdict.now l)) }
    ensures effect { (turn.has_verdict ≡ true → IsTrue ((P.meaning program.now).verdict.valid verdict.now))
        → IfOk result (λ e. (l : Graph) → St.holds store.old desk.old (GD.shown graph.old) l → IsEffect e turn.vid (room_of (GD.shown graph.old).page_len) l (turned (P.meaning program.now) turn first.old.vertex verdict.now l)) }
    ensures leaves { OnTrue St.counted (St.leaves store.new ≤ St.leaves store.old + 1) }
    ensures reads { OnTrue St.counted ((GD.shown graph.new).reads ≤ (GD.shown graph.old).reads + 192) }
    ensures part { St.part store.new ≡ St.part store.old }
    ensures desk { SameDesk desk.old desk.new }
    ensures done { OnOk result (IsDone St.counted (St.part store.old) desk.old (GD.shown graph.old) desk.new (GD.shown graph.new)) }
    ensures err { IfErr result (StopsSettling ((turn.has_verdict ≡ true → IsTrue ((P.meaning program.now).verdict.valid verdict.now))
        → (l : Graph) → St.holds store.old desk.old (GD.shown graph.old) l
        → IsTooWide (room_of (GD.shown graph.old).page_len) (left_at (P.meaning program.now) turn.vid (given_if turn.has_update first.old.vertex) (given_if turn.has_verdict verdict.now) l))
        (GD.shown graph.old) (GD.shown graph.new)) }
    ensures first { SameRoom first.old first.new }
    ensures second_stays { SameRoom second.old second.new }
{
    let was = look_up(turn, store, desk, graph, first, second)?;
    let settled = judge(program, turn, was, first, verdict)?;
    let effect = carry_out(turn, was, settled, store, desk, graph, first)?;
    Ok(effect)
}
