// What became of vids, and how many.
ghost use Rattle.std.specs.Prelude.{◌≡◌, ◌≤◌, ◌<◌, ◌+◌, ◌*◌, ◌^◌, ℕ, List, length, true, false, ◌||◌, OnOk, IfOk, IfErr, is_some, None, Some};
ghost use Rattle.std.specs.Bool.{OnTrue};
ghost use Rattle.px_core.specs.Shown.{Shown, Broke};
ghost use Rattle.px_cache.specs.View.{AnyFile};
ghost use Rattle.px_meaning.specs.Graph.{Graph, IsMap, lookup, room_of};
ghost use Rattle.px_store.specs.Desks.{IsReady, IsDone, SameDesk};
ghost use Rattle.px_mutations.specs.Turns.{given_if};
ghost use Rattle.px_mutations.specs.Effects.{placed, outcome, bit, standing, IsCarried, IsEffect, IsCounted};

use crate::turns::Turn;
use px_core::{Disk, Stop, Vid};
use px_program::Settled;
use px_record::VertexBuf;
use px_store::{Desk, Store};

/// What became of a vid: a vertex came, or one went, and the one that it has now is awake.
#[derive(Clone, Copy, Debug, PartialEq, Eq)]
pub struct Effect {
    pub added: bool,
    pub removed: bool,
    pub live: bool,
}

/// How many vertices came, how many went, and how many are awake. The counts stand still at `u64::MAX`.
#[derive(Clone, Copy, Debug, PartialEq, Eq)]
pub struct Counts {
    pub added: u64,
    pub removed: u64,
    pub live: u64,
}

// One more where this is true.
fn bumped_if(count: u64, more: bool) -> u64
    ensures { result ≡ standing (count + bit more) }
{
    count.saturating_add(u64::from(more))
}

impl Counts {
    pub(crate) fn none() -> Counts
        ensures { result ≡ record { added = 0; removed = 0; live = 0 } }
    {
        Counts {
            added: 0,
            removed: 0,
            live: 0,
        }
    }

    pub(crate) fn with(self, effect: Effect) -> Counts
        ensures { IsCounted effect self result }
    {
        Counts {
            added: bumped_if(self.added, effect.added),
            removed: bumped_if(self.removed, effect.removed),
            live: bumped_if(self.live, effect.live),
        }
    }
}

// Puts a vertex, where `was` tells whether its vid was there.
fn put_in<St: Store, GD: Disk>(
    was: bool,
    store: &mut St,
    desk: &mut Desk,
    graph: &mut GD,
    first: &VertexBuf,
) -> Result<Effect, Stop>
    requires ready { IsReady St.counted (St.part store.old) desk.old (GD.shown graph.old) }
    requires room { first.now.room ≡ room_of (GD.shown graph.old).page_len }
    ensures holds { OnOk result ((l : Graph) → St.holds store.old desk.old (GD.shown graph.old) l → St.holds store.new desk.new (GD.shown graph.new) (placed first.now.vid (Some first.now.vertex) l)) }
    ensures effect { IfOk result (λ e. (l : Graph) → St.holds store.old desk.old (GD.shown graph.old) l → was ≡ is_some (lookup first.now.vid l) → IsEffect e first.now.vid first.now.room l (placed first.now.vid (Some first.now.vertex) l)) }
    ensures leaves { OnTrue St.counted (St.leaves store.new ≤ St.leaves store.old + 1) }
    ensures reads { OnTrue St.counted ((GD.shown graph.new).reads ≤ (GD.shown graph.old).reads + 128) }
    ensures part { St.part store.new ≡ St.part store.old }
    ensures desk { SameDesk desk.old desk.new }
    ensures done { OnOk result (IsDone St.counted (St.part store.old) desk.old (GD.shown graph.old) desk.new (GD.shown graph.new)) }
    ensures err { IfErr result (Broke Stop.Graph AnyFile (GD.shown graph.old) (GD.shown graph.new)) }
{
    // What is read of it tells that it is within its room.
    let _room = first.room();
    let live = !first.halt();
    store.put(graph, desk, first)?;
    Ok(Effect {
        added: !was,
        removed: false,
        live,
    })
}

// Removes a vid, where `was` tells whether it is there.
fn take_out<St: Store, GD: Disk>(
    vid: Vid,
    was: bool,
    store: &mut St,
    desk: &mut Desk,
    graph: &mut GD,
) -> Result<Effect, Stop>
    requires ready { IsReady St.counted (St.part store.old) desk.old (GD.shown graph.old) }
    ensures holds { OnOk result ((l : Graph) → St.holds store.old desk.old (GD.shown graph.old) l → was ≡ is_some (lookup vid l) → St.holds store.new desk.new (GD.shown graph.new) (placed vid None l)) }
    ensures effect { IfOk result (λ e. (l : Graph) (room : ℕ) → St.holds store.old desk.old (GD.shown graph.old) l → was ≡ is_some (lookup vid l) → IsEffect e vid room l (placed vid None l)) }
    ensures leaves { OnTrue St.counted (St.leaves store.new ≡ St.leaves store.old) }
    ensures reads { OnTrue St.counted ((GD.shown graph.new).reads ≤ (GD.shown graph.old).reads + 64) }
    ensures part { St.part store.new ≡ St.part store.old }
    ensures desk { SameDesk desk.old desk.new }
    ensures done { OnOk result (IsDone St.counted (St.part store.old) desk.old (GD.shown graph.old) desk.new (GD.shown graph.new)) }
    ensures err { IfErr result (Broke Stop.Graph AnyFile (GD.shown graph.old) (GD.shown graph.new)) }
{
    if was {
        store.remove(graph, desk, vid)?;
    }
    Ok(Effect {
        added: false,
        removed: was,
        live: false,
    })
}

// A vid that stays as it is in the store: it has this vertex where `was` is true.
fn left_be(was: bool, first: &VertexBuf) -> Effect
    ensures { (l : Graph) → IsMap l → lookup first.now.vid l ≡ given_if was first.now.vertex → IsEffect result first.now.vid first.now.room l (placed first.now.vid (given_if was first.now.vertex) l) }
{
    // What is read of it tells that it is within its room.
    let _room = first.room();
    Effect {
        added: false,
        removed: false,
        live: was && !first.halt(),
    }
}

/// Carries out what was decided on the vid of a turn. The vertex that it has now is held, and `was` tells whether the store has it.
pub(crate) fn carry_out<St: Store, GD: Disk>(
    turn: Turn,
    was: bool,
    settled: Settled,
    store: &mut St,
    desk: &mut Desk,
    graph: &mut GD,
    first: &VertexBuf,
) -> Result<Effect, Stop>
    requires ready { IsReady St.counted (St.part store.old) desk.old (GD.shown graph.old) }
    requires room { first.now.room ≡ room_of (GD.shown graph.old).page_len }
    requires vid { first.now.vid ≡ turn.vid }
    ensures holds { OnOk result ((l : Graph) → St.holds store.old desk.old (GD.shown graph.old) l → IsCarried turn was settled first.now.vertex l → St.holds store.new desk.new (GD.shown graph.new) (placed turn.vid (outcome (turn.has_update || was) settled first.now.vertex) l)) }
    ensures effect { IfOk result (λ e. (l : Graph) → St.holds store.old desk.old (GD.shown graph.old) l → IsCarried turn was settled first.now.vertex l → IsEffect e turn.vid first.now.room l (placed turn.vid (outcome (turn.has_update || was) settled first.now.vertex) l)) }
    ensures leaves { OnTrue St.counted (St.leaves store.new ≤ St.leaves store.old + 1) }
    ensures reads { OnTrue St.counted ((GD.shown graph.new).reads ≤ (GD.shown graph.old).reads + 128) }
    ensures part { St.part store.new ≡ St.part store.old }
    ensures desk { SameDesk desk.old desk.new }
    ensures done { OnOk result (IsDone St.counted (St.part store.old) desk.old (GD.shown graph.old) desk.new (GD.shown graph.new)) }
    ensures err { IfErr result (Broke Stop.Graph AnyFile (GD.shown graph.old) (GD.shown graph.new)) }
{
    match settled {
        Settled::Remove => take_out(turn.vid, was, store, desk, graph),
        Settled::Set => put_in(was, store, desk, graph, first),
        Settled::Keep => {
            if turn.has_update {
                return put_in(was, store, desk, graph, first);
            }
            Ok(left_be(was, first))
        }
    }
}
