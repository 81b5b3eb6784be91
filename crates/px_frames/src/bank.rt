// The bank: all frames of a job, in slots that are lent whole and given back whole, and one slot table, lent likewise.
ghost use Rattle.std.specs.Prelude.{◌≡◌, ◌≤◌, ◌<◌, [], true, false, IsTrue, length, map, sum, IfOk};
ghost use Rattle.px_frames.specs.Banks.{IsFrameLen, slot_home, is_home, size_of, with_home, with_table};
ghost use Rattle.px_frames.specs.Shares.{IsShare};

use crate::{Share, SlotShare};
use arrayvec::ArrayVec;
use std::alloc::{AllocError, Global};
use std::marker::Model;

// The share while it is home, and its size.
#[derive(Default, Drop)]
struct Slot {
    size: u32,
    share: Option<Share>,
}

/// At most eight slots, each with a share that is home or lent out, and a slot table that is home or lent out.
/// All its memory is made by `open`.
#[derive(Drop)]
pub struct Bank {
    slots: ArrayVec<Slot, 8>,
    frame_len: u32,
    table: Option<SlotShare>,
    table_entries: u32,
}

impl Model for Bank {
    ghost use Rattle.std.specs.Prelude.{map, All, is_some};
    ghost use Rattle.px_frames.specs.Banks.{BankView};

    ghost Value = { BankView };

    ghost use Rattle.px_frames.specs.Slots.{slot_view, IsSlot, IsTableOf};

    ghost view = { λ b. record { frame_len = b.frame_len; slots = map slot_view b.slots.items; table_entries = b.table_entries; table_home = is_some b.table } };

    ghost invariant = { λ b. All (IsSlot b.frame_len) b.slots.items × IsTableOf b.table_entries b.table };
}

impl Bank {
    /// A bank with frames of `frame_bytes` bytes, a slot of each of these sizes and a table for `slot_entries` entries,
    /// all home. The only error is want of memory.
    pub fn open(
        alloc: Global,
        frame_bytes: u32,
        sizes: &[u32],
        slot_entries: u32,
    ) -> Result<Bank, AllocError>
        requires frame_len { IsFrameLen frame_bytes }
        requires few { length sizes.now ≤ 8 }
        requires total { sum sizes.now ≤ 65536 }
        ensures frame_len { IfOk result (λ b. b.frame_len ≡ frame_bytes) }
        ensures slots { IfOk result (λ b. b.slots ≡ map slot_home sizes.now) }
        ensures table_entries { IfOk result (λ b. b.table_entries ≡ slot_entries) }
        ensures table_home { IfOk result (λ b. b.table_home ≡ true) }
    {
        let mut slots = ArrayVec::new();
        for size in sizes {
            let share = Share::full(alloc, *size, frame_bytes)?;
            slots.push(Slot {
                size: *size,
                share: Some(share),
            });
        }
        let table = SlotShare::new(alloc, slot_entries)?;
        Ok(Bank {
            slots,
            frame_len: frame_bytes,
            table: Some(table),
            table_entries: slot_entries,
        })
    }

    /// Whether the share of a slot is home.
    pub fn home(&self, slot: u32) -> bool
        requires { slot < length self.now.slots }
        ensures { result ≡ is_home self.now slot }
    {
        self.slots[slot as usize].share.is_some()
    }

    /// Lends the share of a slot that is home.
    pub fn lend(&mut self, slot: u32) -> Share
        requires in_range { slot < length self.old.slots }
        requires home { IsTrue (is_home self.old slot) }
        ensures size { result.size ≡ size_of self.old slot }
        ensures frame_len { result.frame_len ≡ self.old.frame_len }
        ensures full { length result.frames ≡ result.size }
        ensures share { IsShare result }
        ensures out { self.new ≡ with_home self.old slot false }
    {
        match self.slots[slot as usize].share.take() {
            Some(share) => share,
            None => unreachable!(),
        }
    }

    /// Takes back the share of a slot that is out, with all its frames in it.
    pub fn give(&mut self, slot: u32, share: Share)
        requires in_range { slot < length self.old.slots }
        requires out { is_home self.old slot ≡ false }
        requires size { share.size ≡ size_of self.old slot }
        requires frame_len { share.frame_len ≡ self.old.frame_len }
        requires full { length share.frames ≡ share.size }
        ensures { self.new ≡ with_home self.old slot true }
    {
        self.slots[slot as usize].share = Some(share);
    }

    /// Whether the slot table is home.
    pub fn table_home(&self) -> bool
        ensures { result ≡ self.now.table_home }
    {
        self.table.is_some()
    }

    /// Lends the slot table, which is home, with no entry in it.
    pub fn lend_table(&mut self) -> SlotShare
        requires { IsTrue self.old.table_home }
        ensures capacity { result.capacity ≡ self.old.table_entries }
        ensures empty { result.entries ≡ [] }
        ensures out { self.new ≡ with_table self.old false }
    {
        match self.table.take() {
            Some(mut table) => {
                table.clear();
                table
            }
            None => unreachable!(),
        }
    }

    /// Takes back the slot table, which is out. Its entries are let go.
    pub fn give_table(&mut self, table: SlotShare)
        requires out { self.old.table_home ≡ false }
        requires capacity { table.capacity ≡ self.old.table_entries }
        ensures { self.new ≡ with_table self.old true }
    {
        self.table = Some(table);
    }
}
