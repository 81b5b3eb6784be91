// The frames of the bank with which one partition at a time is worked on.
ghost use Rattle.std.specs.Prelude.{◌≡◌};
ghost use Rattle.px_superstep.specs.Benches.{HasBench};
ghost use Rattle.px_superstep.specs.Lending.{bench_out, bench_home, IsBenchOut, IsLent, IsEnough};

use px_frames::{Bank, Share, SlotShare};

const WORK: u32 = 0;

const JOIN: u32 = 1;

const STREAMS: u32 = 2;

const GROUP: u32 = 5;

/// Shares of the bank, each with all its frames, and the slot table.
#[derive(Drop)]
pub(crate) struct Lent {
    pub work: Share,
    pub join: Share,
    pub streams: Share,
    pub group: Share,
    pub table: SlotShare,
}

/// Lends what one partition is worked on with.
pub(crate) fn lend_bench(bank: &mut Bank) -> Lent
    requires bench { HasBench bank.old }
    ensures lent { IsLent bank.new result }
    ensures enough { IsEnough result }
    ensures out { IsBenchOut bank.new }
    ensures bank { bank.new ≡ bench_out bank.old }
    ensures back { bench_home bank.new ≡ bank.old }
{
    let work = bank.lend(WORK);
    let join = bank.lend(JOIN);
    let streams = bank.lend(STREAMS);
    let group = bank.lend(GROUP);
    let table = bank.lend_table();
    Lent {
        work,
        join,
        streams,
        group,
        table,
    }
}

/// Takes back what was lent.
pub(crate) fn give_bench(bank: &mut Bank, lent: Lent)
    requires out { IsBenchOut bank.old }
    requires lent { IsLent bank.old lent }
    ensures { bank.new ≡ bench_home bank.old }
{
    bank.give_table(lent.table);
    bank.give(GROUP, lent.group);
    bank.give(STREAMS, lent.streams);
    bank.give(JOIN, lent.join);
    bank.give(WORK, lent.work);
}
