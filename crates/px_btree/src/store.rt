// The tree as a store.
ghost use Rattle.std.specs.Prelude.{true};
ghost use Rattle.px_store.specs.declared.shared.Desk.{Desk};

use crate::btree::BTree;
use px_core::{Disk, Stop, Vid};
use px_record::VertexBuf;
use px_store::{Desk, Store};

impl Store for BTree {
    ghost use Rattle.std.specs.Prelude.{◌≡◌, true, None};
    ghost use Rattle.px_btree.specs.Open.{IsStored, IsStoredScan};
    ghost use Rattle.px_btree.specs.Scan.{unread, left};
    ghost use Rattle.px_btree.specs.Fill.{IsFilling};
    ghost use Rattle.px_btree.specs.Staying.{stored_stays, place_stays, place_holds, stored_map};

    ghost part = { λ t. t.tree.part };

    ghost counted = { true };

    ghost leaves = { λ t. t.tree.leaves };

    ghost saved = { λ t. t.tree.togo };

    ghost unread = { λ t d. unread t.tree d };

    ghost left = { λ t. left t.tree };

    ghost holds = { IsStored };

    ghost scans = { IsStoredScan };

    ghost fills = { λ t d s l. IsFilling t.tree d.cache s l × (t.leaf ≡ None) };

    fn open(partition: u32) -> BTree {
        BTree::open(partition)
    }

    fn start<D: Disk>(&mut self, disk: &mut D, desk: &mut Desk) -> Result<(), Stop> {
        self.close(desk);
        self.tree.start(disk, desk)
    }

    fn bulk_put<D: Disk>(
        &mut self,
        disk: &mut D,
        desk: &mut Desk,
        v: &VertexBuf,
    ) -> Result<(), Stop> {
        self.close(desk);
        self.tree.bulk_put(disk, desk, v)
    }

    fn bulk_end<D: Disk>(&mut self, disk: &mut D, desk: &mut Desk) -> Result<(), Stop> {
        self.close(desk);
        self.tree.bulk_end(disk, desk)
    }

    fn get<D: Disk>(
        &mut self,
        disk: &mut D,
        desk: &mut Desk,
        vid: Vid,
        into: &mut VertexBuf,
    ) -> Result<bool, Stop> {
        if let Some(there) = self.get_open(desk, vid, into) {
            return Ok(there);
        }
        self.close(desk);
        self.tree.get(disk, desk, vid, into)
    }

    fn put<D: Disk>(&mut self, disk: &mut D, desk: &mut Desk, v: &VertexBuf) -> Result<(), Stop> {
        if self.put_open(desk, v) {
            return Ok(());
        }
        self.close(desk);
        self.tree.put(disk, desk, v)?;
        self.open_grown(desk, v.body().len());
        Ok(())
    }

    fn remove<D: Disk>(&mut self, disk: &mut D, desk: &mut Desk, vid: Vid) -> Result<bool, Stop> {
        self.close(desk);
        self.tree.remove(disk, desk, vid)
    }

    fn settle<D: Disk>(&mut self, _disk: &mut D, desk: &mut Desk) -> Result<(), Stop> {
        self.close(desk);
        desk.owner = None;
        Ok(())
    }

    fn rewind<D: Disk>(&mut self, _disk: &mut D, desk: &mut Desk) -> Result<(), Stop> {
        self.close(desk);
        self.tree.rewind();
        Ok(())
    }

    #[inline]
    fn next<D: Disk>(
        &mut self,
        disk: &mut D,
        desk: &mut Desk,
        into: &mut VertexBuf,
    ) -> Result<bool, Stop> {
        self.close(desk);
        self.tree.next(disk, desk, into)
    }

    fn depth(&self) -> u32 {
        self.tree.depth()
    }

    ghost stays = { stored_stays };

    ghost scan_stays = { place_stays };

    ghost scan_holds = { place_holds };

    ghost is_map = { stored_map };
}
