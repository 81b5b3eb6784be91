// The bank of a job.
ghost use Rattle.std.specs.Prelude.{◌≡◌, ◌≤◌, ◌*◌, true, IfOk};
ghost use Rattle.px_frames.specs.Banks.{IsFrameLen, size_of};
ghost use Rattle.px_superstep.specs.Plans.{total, tuple_frames, entries_in, bytes_of, IsBank};

use crate::plan::Shares;
use px_frames::Bank;
use std::alloc::{AllocError, Global};

/// The bank of a job over so many partitions with these shares: its eight slots and its slot table, all home. The only error is want of memory.
/// All that it makes has the bytes of the shares' frames, beside two numbers for each frame.
pub fn open_bank(
    alloc: Global,
    shares: &Shares,
    partitions: u32,
    frame_bytes: u32,
) -> Result<Bank, AllocError>
    requires frame_len { IsFrameLen frame_bytes }
    requires work { shares.now.work ≡ 4 }
    requires streams { shares.now.streams ≡ 6 }
    requires out { shares.now.out ≡ 2 * partitions }
    requires group { 8 ≤ shares.now.group }
    requires most { total shares.now ≤ 65536 }
    ensures bank { IfOk result (IsBank partitions true true) }
    ensures group { IfOk result (λ b. size_of b 5 ≡ tuple_frames shares.now.group) }
    ensures cache { IfOk result (λ b. size_of b 6 ≡ shares.now.cache) }
    ensures lsm { IfOk result (λ b. size_of b 7 ≡ shares.now.lsm) }
    ensures frame_len { IfOk result (λ b. b.frame_len ≡ frame_bytes) }
    ensures entries { IfOk result (λ b. b.table_entries ≡ entries_in shares.now.group frame_bytes) }
    ensures bytes { IfOk result (λ b. bytes_of b ≡ total shares.now * frame_bytes) }
{
    let table = shares.group / 4;
    let sizes = [
        4,
        3,
        3,
        partitions,
        partitions,
        shares.group - table,
        shares.cache,
        shares.lsm,
    ];
    let bank = Bank::open(alloc, frame_bytes, &sizes, table * (frame_bytes / 16))?;
    Ok(bank)
}
