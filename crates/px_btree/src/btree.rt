// The tree that its callers see: a closed tree, and a leaf of it that may be open.
ghost use Rattle.std.specs.Prelude.{◌≡◌, ◌≤◌, ◌<◌, ◌+◌, ◌^◌, ℕ, true, None, is_some, IsTrue, IsFalse, IfSome};
ghost use Rattle.px_core.specs.Shown.{Shown};
ghost use Rattle.px_meaning.specs.Graph.{Graph, fresh, lookup, vertex_or_fresh, put as put_item, room_of};
ghost use Rattle.px_pages.specs.Page.{IsPageLen};
ghost use Rattle.px_store.specs.Desks.{IsReady, IsDone, SameDesk, SameRoom};
ghost use Rattle.px_btree.specs.Tree.{TreeView, IsHeld, started_in};
ghost use Rattle.px_btree.specs.Scan.{IsScan, unread};
ghost use Rattle.px_btree.specs.Open.{IsStored, IsStoredScan};

use crate::open_leaf::{OpenLeaf, close_leaf, get_leaf, open_leaf, put_leaf};
use crate::tree::{ClosedTree, Mark};
use px_core::Vid;
use px_record::VertexBuf;
use px_store::Desk;
use std::marker::Model;

/// A tree of pages in one file of the graph disk. Its leaves are linked from left to right.
/// While puts ascend in a leaf, it may be open. A leaf is open in a frame alone: every call that does not go on in it closes it first.
#[derive(Drop)]
pub struct BTree {
    pub(crate) tree: ClosedTree,
    pub(crate) leaf: Option<OpenLeaf>,
    // The place of the last put into the closed tree.
    pub(crate) last_put: Option<Mark>,
}

impl Model for BTree {
    ghost use Rattle.px_btree.specs.Open.{OpenTreeView};

    ghost Value = { OpenTreeView };

    ghost view = { λ t. record { tree = t.tree; leaf = t.leaf } };
}

// Whether a put of a vid goes on in a leaf from the place of the put before, and its tuple takes other bytes than the one that stood there.
fn grows(before: Option<Mark>, mark: Mark, len: usize) -> bool {
    let same = match mark.place.tuple {
        Some(t) => t.key == mark.key && t.len as usize == len,
        None => false,
    };
    match before {
        Some(last) => last.page == mark.page && last.key < mark.key && !same,
        None => false,
    }
}

impl BTree {
    ghost use Rattle.px_store.specs.declared.shared.Desk.{Desk};

    /// A tree of this partition. It holds nothing before it is started.
    pub fn open(partition: u32) -> BTree
        requires { partition < 16 }
        ensures { result ≡ record { tree = started_in partition; leaf = None } }
    {
        BTree {
            tree: ClosedTree::open(partition),
            leaf: None,
            last_put: None,
        }
    }

    /// Closes the leaf that is open.
    #[inline]
    pub(crate) fn close(&mut self, desk: &mut Desk)
        requires { IsPageLen desk.old.cache.len }
        ensures same { self.new ≡ record self.old { leaf = None } }
        ensures holds { (s : Shown) (l : Graph) → IsStored self.old desk.old s l → IsHeld self.old.tree desk.new s l }
        ensures scans { (s : Shown) (a b : Graph) → IsStoredScan self.old desk.old s a b → IsScan self.old.tree desk.new s a b }
        ensures none { self.old.leaf ≡ None → desk.new ≡ desk.old }
        ensures unread { (t : TreeView) → unread t desk.new ≡ unread t desk.old }
        ensures desk { SameDesk desk.old desk.new }
        ensures done { (s : Shown) → IsReady true self.old.tree.part desk.old s → IsDone true self.old.tree.part desk.old s desk.new s }
    {
        let file = self.tree.file();
        match self.leaf {
            None => {}
            Some(leaf) => {
                close_leaf(&mut desk.cache, file, leaf);
                self.leaf = None;
            }
        }
    }

    // The leaf that is open, where a vid is not below those in its front.
    fn leaf_for(&self, vid: Vid) -> Option<OpenLeaf>
        ensures is { IfSome result (λ o. self.now.leaf ≡ Some o) }
        ensures order { IfSome result (λ o. o.from ≤ vid) }
        ensures most { IfSome result (λ o. vid + 1 < 2 ^ 64) }
    {
        match self.leaf {
            Some(leaf) if leaf.from <= vid && vid < u64::MAX => Some(leaf),
            _ => None,
        }
    }

    /// Puts a vertex into the leaf that is open, if its vid lies there for certain and there is room. It reads nothing.
    pub(crate) fn put_open(&mut self, desk: &mut Desk, v: &VertexBuf) -> bool
        requires { IsPageLen desk.old.cache.len }
        ensures put { IsTrue result → (s : Shown) (l : Graph) → v.now.room ≡ room_of s.page_len → IsStored self.old desk.old s l → IsStored self.new desk.new s (put_item v.now.vid v.now.vertex l) }
        ensures holds { IsFalse result → (s : Shown) (l : Graph) → IsStored self.old desk.old s l → IsStored self.new desk.new s l }
        ensures tree { self.new.tree ≡ self.old.tree }
        ensures desk { SameDesk desk.old desk.new }
        ensures done { (s : Shown) → IsReady true self.old.tree.part desk.old s → IsDone true self.old.tree.part desk.old s desk.new s }
    {
        let file = self.tree.file();
        let vid = v.vid();
        match self.leaf_for(vid) {
            None => false,
            Some(leaf) => {
                let mut leaf = leaf;
                let done = put_leaf(&mut desk.cache, file, &mut leaf, vid, v.body());
                self.leaf = Some(leaf);
                done
            }
        }
    }

    /// Gives the vertex of a vid out of the leaf that is open, or the fresh one where it is not there, if the vid lies there for certain. It reads nothing.
    pub(crate) fn get_open(
        &mut self,
        desk: &mut Desk,
        vid: Vid,
        into: &mut VertexBuf,
    ) -> Option<bool>
        requires page { IsPageLen desk.old.cache.len }
        requires room { into.old.room ≡ room_of desk.old.cache.len }
        ensures found { IfSome result (λ b. (s : Shown) (l : Graph) → IsStored self.old desk.old s l → (b ≡ is_some (lookup vid l)) × (into.new.vertex ≡ vertex_or_fresh (lookup vid l))) }
        ensures vid { IfSome result (λ b. into.new.vid ≡ vid) }
        ensures fresh { IfSome result (λ b. IsFalse b → into.new.vertex ≡ fresh) }
        ensures into { SameRoom into.old into.new }
        ensures holds { (s : Shown) (l : Graph) → IsStored self.old desk.old s l → IsStored self.new desk.new s l }
        ensures scans { (s : Shown) (a b : Graph) → IsStoredScan self.old desk.old s a b → IsStoredScan self.new desk.new s a b }
        ensures tree { self.new.tree ≡ self.old.tree }
        ensures desk { SameDesk desk.old desk.new }
        ensures done { (s : Shown) → IsReady true self.old.tree.part desk.old s → IsDone true self.old.tree.part desk.old s desk.new s }
    {
        let file = self.tree.file();
        match self.leaf_for(vid) {
            None => None,
            Some(leaf) => {
                let mut leaf = leaf;
                let given = get_leaf(&mut desk.cache, file, &mut leaf, vid, into);
                self.leaf = Some(leaf);
                given
            }
        }
    }

    // The place of a put that has just been made, if it put other bytes behind the place of the put before.
    fn grown(&mut self, len: usize) -> Option<Mark>
        ensures mark { IfSome result (λ m. self.new.tree.mark ≡ Some m) }
        ensures same { self.new ≡ self.old }
    {
        let before = self.last_put;
        self.last_put = self.tree.mark;
        match self.tree.mark {
            Some(mark) if grows(before, mark, len) => Some(mark),
            _ => None,
        }
    }

    /// Opens the leaf of the last call, if that put a body of so many bytes behind the place of the put before, and the bytes are others.
    pub(crate) fn open_grown(&mut self, desk: &mut Desk, len: usize)
        requires page { IsPageLen desk.old.cache.len }
        requires none { self.old.leaf ≡ None }
        ensures holds { (s : Shown) (l : Graph) → IsHeld self.old.tree desk.old s l → IsStored self.new desk.new s l }
        ensures tree { self.new.tree ≡ self.old.tree }
        ensures desk { SameDesk desk.old desk.new }
        ensures done { (s : Shown) → IsReady true self.old.tree.part desk.old s → IsDone true self.old.tree.part desk.old s desk.new s }
    {
        let file = self.tree.file();
        if let Some(mark) = self.grown(len) {
            self.leaf = open_leaf(&mut desk.cache, file, mark);
            desk.owner = Some(self.tree.part);
        }
    }
}
