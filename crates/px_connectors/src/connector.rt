// From each sender to each receiver.
ghost use Rattle.std.specs.Prelude.{◌≡◌, ◌≢◌, ◌≤◌, ◌<◌, ◌+◌, ◌-◌, ◌^◌, ◌++◌, [], ◌∷◌, ℕ, Bool, true, false, length, min, IsTrue, OnOk, IfOk, IfErr, IfSome, IfNone, OnSome};
ghost use Rattle.px_core.specs.Parts.{to_part, all_of};
ghost use Rattle.px_core.specs.Same.{Same};
ghost use Rattle.px_core.specs.Shown.{Shown, Clean, Broke, NoFile};
ghost use Rattle.px_frames.specs.Buffer.{SameRoom, IsWithin};
ghost use Rattle.px_meaning.specs.Graph.{pair_size, room_of};
ghost use Rattle.px_meaning.specs.Merge.{Pairs, AllValid, grouped};
ghost use Rattle.px_meaning.specs.Step.{has_wide_fold};
ghost use Rattle.px_program.specs.Groups.{room_in, IsOwn, StopsGrouping, LeadsPair};
ghost use Rattle.px_store.specs.Joins.{message_tuples};
ghost use Rattle.px_stream.specs.Stream.{Took, Has};
ghost use Rattle.px_connectors.specs.Files.{OwnOr, OwnOrConnector};
ghost use Rattle.px_connectors.specs.Views.{ConnectorView, IsSenderFile, IsConnectorFile, AllUpTo, at};

use px_core::{Disk, Stop, Turns, Vid};
use px_frames::{Buf, Share};
use px_program::{Group, Merge};
use px_stream::Writer;

/// Brings what each sender puts to the receivers, each pair to the partition of its vid. Senders and receivers are the partitions.
/// The files of sender p are 256 + 16p and the fifteen behind it. A finished sender's list stays in them until that sender's next `begin`, in this connector or in another over the same disk.
/// A call on a sender or a receiver that was not begun or opened does nothing.
/// The only error of the calls but `gather` is `Stop::Scratch`, where the disk failed; after it nothing is said of the sender until its next `begin`, nor of the receiver until the next `receive`.
pub trait Connector: Drop {
    /// How its callers see it.
    ghost view: { Self → ConnectorView };

    /// The sender is begun, and put these pairs so far.
    ghost sending: { Self → Shown → ℕ → Pairs → Type 0 };

    /// The sender is finished, and put these pairs.
    ghost sent: { Self → Shown → ℕ → Pairs → Type 0 };

    /// A receiver is open, and each sender has these pairs to it left.
    ghost receives: { Self → Shown → (ℕ → Pairs) → Type 0 };

    /// The most pairs that the open receiver can still be given, over any disk.
    ghost left: { Self → ℕ };

    /// It folds neighbours of one ascending stream, and uses no group.
    ghost folding: { Bool };

    /// A connector of so many partitions, of which none is begun. Each takes a frame of the share.
    fn open(share: Share, partitions: u32) -> Self
        requires some { 1 ≤ partitions }
        requires most { partitions ≤ 16 }
        requires frames { partitions ≤ length share.frames }
        ensures parts { (view result).parts ≡ partitions }
        ensures frame_len { (view result).frame_len ≡ share.frame_len }
        ensures size { (view result).size ≡ share.size }
        ensures frames { (view result).frames ≡ length share.frames };

    /// The share, with all its frames.
    fn close(self) -> Share
        ensures frame_len { result.frame_len ≡ (view self).frame_len }
        ensures size { result.size ≡ (view self).size }
        ensures frames { length result.frames ≡ (view self).frames };

    /// Begins a sender, which has put nothing then. No receiver is open from then on.
    fn begin<D: Disk>(&mut self, disk: &mut D, sender: u32) -> Result<(), Stop>
        requires sender { sender < (view self.old).parts }
        requires frame_len { (view self.old).frame_len ≡ (D.shown disk.old).page_len }
        ensures sending { OnOk result ((D.shown disk.old).tells ≡ true → sending self.new (D.shown disk.new) sender []) }
        ensures others { OnOk result ((p : ℕ) (l : Pairs) → p ≢ sender → sent self.old (D.shown disk.old) p l → sent self.new (D.shown disk.new) p l) }
        ensures view { view self.new ≡ record (view self.old) { sender = sender } }
        ensures ok { OnOk result (Clean (IsSenderFile sender) (D.shown disk.old) (D.shown disk.new)) }
        ensures err { IfErr result (Broke Stop.Scratch (IsSenderFile sender) (D.shown disk.old) (D.shown disk.new)) };

    /// Puts a pair of the sender that was begun. Its vid is not below those before it.
    fn put<D: Disk>(&mut self, disk: &mut D, vid: Vid, payload: &[u8]) -> Result<(), Stop>
        requires frame_len { (view self.old).frame_len ≡ (D.shown disk.old).page_len }
        requires room { pair_size payload.now ≤ room_of (view self.old).frame_len }
        ensures sending { OnOk result ((p : ℕ) (l : Pairs) → AllUpTo vid l → sending self.old (D.shown disk.old) p l → sending self.new (D.shown disk.new) p (l ++ (vid, payload.now) ∷ [])) }
        ensures others { OnOk result ((p : ℕ) (l : Pairs) → p ≢ (view self.old).sender → sent self.old (D.shown disk.old) p l → sent self.new (D.shown disk.new) p l) }
        ensures view { view self.new ≡ view self.old }
        ensures ok { OnOk result (Clean (IsSenderFile (view self.old).sender) (D.shown disk.old) (D.shown disk.new)) }
        ensures err { IfErr result (Broke Stop.Scratch (IsSenderFile (view self.old).sender) (D.shown disk.old) (D.shown disk.new)) };

    /// Ends the sender that was begun.
    fn finish<D: Disk>(&mut self, disk: &mut D) -> Result<(), Stop>
        requires { (view self.old).frame_len ≡ (D.shown disk.old).page_len }
        ensures sent { OnOk result ((p : ℕ) (l : Pairs) → sending self.old (D.shown disk.old) p l → sent self.new (D.shown disk.new) p l) }
        ensures others { OnOk result ((p : ℕ) (l : Pairs) → p ≢ (view self.old).sender → sent self.old (D.shown disk.old) p l → sent self.new (D.shown disk.new) p l) }
        ensures view { view self.new ≡ view self.old }
        ensures ok { OnOk result (Clean (IsSenderFile (view self.old).sender) (D.shown disk.old) (D.shown disk.new)) }
        ensures err { IfErr result (Broke Stop.Scratch (IsSenderFile (view self.old).sender) (D.shown disk.old) (D.shown disk.new)) };

    /// Opens a receiver, which is given what all senders put to it. All of them are finished. No sender is begun from then on.
    fn receive<D: Disk>(&mut self, disk: &mut D, receiver: u32) -> Result<(), Stop>
        requires receiver { receiver < (view self.old).parts }
        requires frame_len { (view self.old).frame_len ≡ (D.shown disk.old).page_len }
        ensures receives { OnOk result ((ls : ℕ → Pairs) → ((p : ℕ) → p < (view self.old).parts → sent self.old (D.shown disk.old) p (ls p))
            → receives self.new (D.shown disk.new) (λ p. to_part (view self.old).parts receiver (ls p))) }
        ensures sent { OnOk result ((p : ℕ) (l : Pairs) → sent self.old (D.shown disk.old) p l → sent self.new (D.shown disk.new) p l) }
        ensures view { view self.new ≡ view self.old }
        ensures ok { OnOk result (Clean NoFile (D.shown disk.old) (D.shown disk.new)) }
        ensures err { IfErr result (Broke Stop.Scratch IsConnectorFile (D.shown disk.old) (D.shown disk.new)) };

    /// The next pair to the open receiver, which is the first that some sender has left, or `None` after the last. Its payload goes into the buffer.
    fn next<D: Disk, T: Turns>(
        &mut self,
        disk: &mut D,
        turns: &mut T,
        into: &mut Buf,
    ) -> Result<Option<Vid>, Stop>
        requires frame_len { (view self.old).frame_len ≡ (D.shown disk.old).page_len }
        requires limit { 13 + into.old.limit ≡ room_of (view self.old).frame_len }
        ensures some { IfOk result (λ o. IfSome o (λ v. (ls : ℕ → Pairs) → receives self.old (D.shown disk.old) ls
            → (p : ℕ) × (p < (view self.old).parts) × LeadsPair v into.new.bytes (ls p) (λ l. receives self.new (D.shown disk.new) (at p l ls)))) }
        ensures none { IfOk result (λ o. IfNone o ((ls : ℕ → Pairs) → receives self.old (D.shown disk.old) ls → (p : ℕ) → p < (view self.old).parts → ls p ≡ [])) }
        ensures falls { IfOk result (λ o. OnSome o (left self.new < left self.old)) }
        ensures left { left self.new ≤ left self.old }
        ensures sent { OnOk result ((p : ℕ) (l : Pairs) → sent self.old (D.shown disk.old) p l → sent self.new (D.shown disk.new) p l) }
        ensures view { view self.new ≡ view self.old }
        ensures ok { OnOk result (Clean NoFile (D.shown disk.old) (D.shown disk.new)) }
        ensures err { IfErr result (Broke Stop.Scratch IsConnectorFile (D.shown disk.old) (D.shown disk.new)) }
        ensures within { IfOk result (λ o. OnSome o (IsWithin into.new)) }
        ensures room { SameRoom into.old into.new };

    /// Writes the messages of the open receiver, which was given nothing yet, to a file: one a vid, ascending, with the fold of all that was put to it. It answers their number.
    /// The group took nothing before, and the writer was started. Its pages in the file are those from `first` on that the writer then names.
    /// The errors are those of the group, and `Stop::Scratch` where the disk failed under the connector or the writer.
    fn gather<D: Disk, T: Turns, M: Merge, G: Group>(
        &mut self,
        disk: &mut D,
        turns: &mut T,
        merge: &M,
        group: &mut G,
        to: &mut Writer,
        into: &mut Buf,
    ) -> Result<u64, Stop>
        requires frame_len { (view self.old).frame_len ≡ (D.shown disk.old).page_len }
        requires group_len { (G.made group.old).frame_len ≡ (D.shown disk.old).page_len }
        requires to_len { to.old.page_len ≡ (D.shown disk.old).page_len }
        requires limit { 13 + into.old.limit ≡ room_of (view self.old).frame_len }
        requires open { IsTrue (G.is_open group.old) }
        requires apart { (f : ℕ) → IsOwn (G.made group.old) f → IsConnectorFile f → ⊥ }
        requires to_apart { IsOwn (G.made group.old) to.old.file → ⊥ }
        requires to_own { IsConnectorFile to.old.file → ⊥ }
        ensures holds { OnOk result ((ls : ℕ → Pairs) → receives self.old (D.shown disk.old) ls → AllValid (M.rule merge.now) (all_of (view self.old).parts ls)
            → G.took (D.shown disk.old) group.old (M.rule merge.now) [] → Took (D.shown disk.old) to.old []
            → Has (D.shown disk.new) to.new.file to.new.first to.new.pages (message_tuples (grouped (M.rule merge.now) (all_of (view self.old).parts ls)))) }
        ensures count { IfOk result (λ n. (ls : ℕ → Pairs) → receives self.old (D.shown disk.old) ls → AllValid (M.rule merge.now) (all_of (view self.old).parts ls)
            → G.took (D.shown disk.old) group.old (M.rule merge.now) [] → n ≡ min (length (grouped (M.rule merge.now) (all_of (view self.old).parts ls))) (2 ^ 64 - 1)) }
        ensures fits { OnOk result ((ls : ℕ → Pairs) → receives self.old (D.shown disk.old) ls → AllValid (M.rule merge.now) (all_of (view self.old).parts ls)
            → G.took (D.shown disk.old) group.old (M.rule merge.now) [] → has_wide_fold (M.rule merge.now) (room_in (G.made group.old)) (all_of (view self.old).parts ls) ≡ false) }
        ensures sent { OnOk result ((p : ℕ) (l : Pairs) → sent self.old (D.shown disk.old) p l → sent self.new (D.shown disk.new) p l) }
        ensures view { view self.new ≡ view self.old }
        ensures ok { OnOk result (Clean (OwnOr (G.made group.old) to.old.file) (D.shown disk.old) (D.shown disk.new)) }
        ensures err { IfErr result (StopsGrouping (OwnOrConnector (G.made group.old) to.old.file)
            ((ls : ℕ → Pairs) → receives self.old (D.shown disk.old) ls → AllValid (M.rule merge.now) (all_of (view self.old).parts ls)
            → G.took (D.shown disk.old) group.old (M.rule merge.now) [] → IsTrue (has_wide_fold (M.rule merge.now) (room_in (G.made group.old)) (all_of (view self.old).parts ls)))
            (D.shown disk.old) (D.shown disk.new)) }
        ensures room { SameRoom into.old into.new }
        ensures first { OnOk result (to.new.first ≡ to.old.first) }
        ensures to_file { to.new.file ≡ to.old.file }
        ensures to_len { to.new.page_len ≡ to.old.page_len }
        ensures stays { G.made group.new ≡ G.made group.old };

    /// What a sender is putting depends on its own files alone.
    ghost sending_stays: { (c : Self) (s t : Shown) (p : ℕ) (l : Pairs) → Same (IsSenderFile p) s t → sending c s p l → sending c t p l };

    /// So does what one has put.
    ghost sent_stays: { (c : Self) (s t : Shown) (p : ℕ) (l : Pairs) → Same (IsSenderFile p) s t → sent c s p l → sent c t p l };

    /// It is known of a disk that tells alone.
    ghost sent_tells: { (c : Self) (s : Shown) (p : ℕ) (l : Pairs) → sent c s p l → s.tells ≡ true };

    /// What an open receiver is still to be given depends on the files of all senders.
    ghost receives_stays: { (c : Self) (s t : Shown) (ls : ℕ → Pairs) → Same IsConnectorFile s t → receives c s ls → receives c t ls };

    /// The sender that is begun is the last that was.
    ghost sender_is: { (c : Self) (s : Shown) (p : ℕ) (l : Pairs) → sending c s p l → p ≡ (view c).sender };
}
