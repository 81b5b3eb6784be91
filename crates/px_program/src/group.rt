// Groupings: pairs are taken in any order, and each vid is given once, ascending, with the fold of all its payloads.
ghost use Rattle.std.specs.Prelude.{◌≡◌, ◌≢◌, ◌<◌, ◌≤◌, ◌+◌, ◌++◌, [], ◌∷◌, ℕ, Bool, true, false, IsTrue, length, OnOk, IfOk, IfErr, IfSome, IfNone, OnSome};
ghost use Rattle.px_core.specs.Same.{Same};
ghost use Rattle.px_core.specs.Shown.{Shown, Clean};
ghost use Rattle.px_frames.specs.Buffer.{SameRoom, IsWithin};
ghost use Rattle.px_meaning.specs.Merge.{MergeRule, Pairs, AllValid, grouped};
ghost use Rattle.px_meaning.specs.Step.{has_wide_fold};
ghost use Rattle.px_program.specs.Groups.{GroupMade, made_of, room_in, IsOwn, StopsGrouping, LeadsPair, Fits};

use crate::Merge;
use px_core::{Disk, Stop, Vid};
use px_frames::{Buf, Share, SlotShare};

/// Groups pairs of a vid and a payload by vid, within the frames of a share and with two files of a disk. Payloads are taken by `add` up to `seal`, and given by `next` from then on.
/// Each call is handed a merge. What is said of content is said of the calls whose merges all have one rule, and of payloads that are valid by it.
/// The errors are `Stop::Scratch`, where the disk failed, and `Stop::Beyond`, where the fold of all that was taken for some vid is above room. After an error the group is spent: it can only be closed.
pub trait Group: Drop {
    /// It folds by hashing. Else it sorts.
    ghost hashing: { Bool };

    /// What it was opened with.
    ghost made: { Self → GroupMade };

    /// It takes pairs.
    ghost is_open: { Self → Bool };

    /// It gives pairs.
    ghost is_sealed: { Self → Bool };

    /// The disk tells, and by this rule it took these pairs. Of a disk that does not tell this never holds: what a group spilled there may come back as anything.
    ghost took: { Shown → Self → MergeRule → Pairs → Type 0 };

    /// The disk tells, and by this rule it took the first pairs and has the second ones still to give.
    ghost gives: { Shown → Self → MergeRule → Pairs → Pairs → Type 0 };

    /// The most pairs that it can still give, over any disk.
    ghost left: { Self → ℕ };

    /// A group that took nothing. It works with the frames that are in the share, with the slot table, whose entries it lets go, and with two files, which it need not find empty.
    fn open(share: Share, table: SlotShare, first: u32, second: u32) -> Self
        requires frames { 6 ≤ length share.frames }
        requires capacity { 32 ≤ table.capacity }
        requires files { first ≢ second }
        ensures took { (s : Shown) (rule : MergeRule) → s.tells ≡ true → s.page_len ≡ share.frame_len → took s result rule [] }
        ensures made { made result ≡ made_of share table first second }
        ensures open { IsTrue (is_open result) };

    /// Takes a pair. Where it answers `Beyond`, this pair counts as taken.
    fn add<D: Disk, M: Merge>(
        &mut self,
        disk: &mut D,
        merge: &M,
        vid: Vid,
        payload: &[u8],
    ) -> Result<(), Stop>
        requires page_len { (made self.old).frame_len ≡ (D.shown disk.old).page_len }
        requires open { IsTrue (is_open self.old) }
        requires room { 13 + length payload.now ≤ room_in (made self.old) }
        ensures took { OnOk result ((l : Pairs) → IsTrue ((M.rule merge.now).valid payload.now) → took (D.shown disk.old) self.old (M.rule merge.now) l
            → took (D.shown disk.new) self.new (M.rule merge.now) (l ++ (vid, payload.now) ∷ [])) }
        ensures open { OnOk result (IsTrue (is_open self.new)) }
        ensures ok { OnOk result (Clean (IsOwn (made self.old)) (D.shown disk.old) (D.shown disk.new)) }
        ensures err { IfErr result (StopsGrouping (IsOwn (made self.old)) ((l : Pairs) → IsTrue ((M.rule merge.now).valid payload.now) → took (D.shown disk.old) self.old (M.rule merge.now) l
            → IsTrue (has_wide_fold (M.rule merge.now) (room_in (made self.old)) (l ++ (vid, payload.now) ∷ []))) (D.shown disk.old) (D.shown disk.new)) }
        ensures writes { (l : Pairs) → IsTrue ((M.rule merge.now).valid payload.now) → took (D.shown disk.old) self.old (M.rule merge.now) l
            → Fits hashing (made self.old) (M.rule merge.now) (l ++ (vid, payload.now) ∷ []) → (D.shown disk.new).writes ≡ (D.shown disk.old).writes }
        ensures stays { made self.new ≡ made self.old };

    /// Takes no more pairs, and begins to give.
    fn seal<D: Disk, M: Merge>(&mut self, disk: &mut D, merge: &M) -> Result<(), Stop>
        requires page_len { (made self.old).frame_len ≡ (D.shown disk.old).page_len }
        requires open { IsTrue (is_open self.old) }
        ensures gives { OnOk result ((l : Pairs) → took (D.shown disk.old) self.old (M.rule merge.now) l → gives (D.shown disk.new) self.new (M.rule merge.now) l (grouped (M.rule merge.now) l)) }
        ensures sealed { OnOk result (IsTrue (is_sealed self.new)) }
        ensures ok { OnOk result (Clean (IsOwn (made self.old)) (D.shown disk.old) (D.shown disk.new)) }
        ensures err { IfErr result (StopsGrouping (IsOwn (made self.old)) ((l : Pairs) → took (D.shown disk.old) self.old (M.rule merge.now) l
            → IsTrue (has_wide_fold (M.rule merge.now) (room_in (made self.old)) l)) (D.shown disk.old) (D.shown disk.new)) }
        ensures writes { (l : Pairs) → took (D.shown disk.old) self.old (M.rule merge.now) l → Fits hashing (made self.old) (M.rule merge.now) l → (D.shown disk.new).writes ≡ (D.shown disk.old).writes }
        ensures stays { made self.new ≡ made self.old };

    /// The next vid, whose fold goes into the buffer, or `None` after the last. `None` is not answered where some vid's fold is too long to be given.
    fn next<D: Disk, M: Merge>(
        &mut self,
        disk: &mut D,
        merge: &M,
        into: &mut Buf,
    ) -> Result<Option<Vid>, Stop>
        requires page_len { (made self.old).frame_len ≡ (D.shown disk.old).page_len }
        requires sealed { IsTrue (is_sealed self.old) }
        requires limit { 13 + into.old.limit ≡ room_in (made self.old) }
        ensures some { IfOk result (λ o. IfSome o (λ v. (all rest : Pairs) → gives (D.shown disk.old) self.old (M.rule merge.now) all rest
            → LeadsPair v into.new.bytes rest (gives (D.shown disk.new) self.new (M.rule merge.now) all))) }
        ensures none { IfOk result (λ o. IfNone o ((all rest : Pairs) → gives (D.shown disk.old) self.old (M.rule merge.now) all rest → rest ≡ [])) }
        ensures fits { IfOk result (λ o. IfNone o ((all rest : Pairs) → gives (D.shown disk.old) self.old (M.rule merge.now) all rest
            → has_wide_fold (M.rule merge.now) (room_in (made self.old)) all ≡ false)) }
        ensures sealed { OnOk result (IsTrue (is_sealed self.new)) }
        ensures falls { IfOk result (λ o. OnSome o (left self.new < left self.old)) }
        ensures left { left self.new ≤ left self.old }
        ensures ok { OnOk result (Clean (IsOwn (made self.old)) (D.shown disk.old) (D.shown disk.new)) }
        ensures err { IfErr result (StopsGrouping (IsOwn (made self.old)) ((all rest : Pairs) → gives (D.shown disk.old) self.old (M.rule merge.now) all rest
            → IsTrue (has_wide_fold (M.rule merge.now) (room_in (made self.old)) all)) (D.shown disk.old) (D.shown disk.new)) }
        ensures writes { (all rest : Pairs) → gives (D.shown disk.old) self.old (M.rule merge.now) all rest → Fits hashing (made self.old) (M.rule merge.now) all
            → (D.shown disk.new).writes ≡ (D.shown disk.old).writes }
        ensures within { IfOk result (λ o. OnSome o (IsWithin into.new)) }
        ensures room { SameRoom into.old into.new }
        ensures stays { made self.new ≡ made self.old };

    /// The share and the slot table back, the share with as many frames as it had.
    fn close(self) -> (Share, SlotShare)
        ensures size { result.0.size ≡ (made self).size }
        ensures frame_len { result.0.frame_len ≡ (made self).frame_len }
        ensures frames { length result.0.frames ≡ (made self).frames }
        ensures capacity { result.1.capacity ≡ (made self).capacity };

    // It never takes and gives at once.
    ghost apart: { (g : Self) → IsTrue (is_open g) → IsTrue (is_sealed g) → ⊥ };

    // What is known of a group stays known while nobody else changes its files.
    ghost took_stays: { (s t : Shown) (g : Self) (rule : MergeRule) (l : Pairs) → Same (IsOwn (made g)) s t → took s g rule l → took t g rule l };

    ghost gives_stays: { (s t : Shown) (g : Self) (rule : MergeRule) (all rest : Pairs) → Same (IsOwn (made g)) s t → gives s g rule all rest → gives t g rule all rest };

    // What was taken is valid.
    ghost valid: { (s : Shown) (g : Self) (rule : MergeRule) (l : Pairs) → took s g rule l → AllValid rule l };
}
