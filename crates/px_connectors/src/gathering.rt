// A stream of pairs is grouped into another stream.
ghost use Rattle.std.specs.Prelude.{◌≡◌, ◌≢◌, ◌≤◌, ◌+◌, ◌-◌, ◌^◌, ◌++◌, [], ℕ, List, length, min, false, IsTrue, OnOk, IfOk, IfErr};
ghost use Rattle.std.specs.List.Sorted.{IsPermutation};
ghost use Rattle.px_core.specs.Parts.{all_of};
ghost use Rattle.px_core.specs.Shown.{Clean};
ghost use Rattle.px_frames.specs.Buffer.{SameRoom};
ghost use Rattle.px_pages.specs.Entry.{Entry};
ghost use Rattle.px_stream.specs.Stream.{Took, Has, ToGive};
ghost use Rattle.px_meaning.specs.Merge.{Pairs, AllValid, grouped};
ghost use Rattle.px_meaning.specs.Step.{has_wide_fold};
ghost use Rattle.px_program.specs.Groups.{room_in, IsOwn, StopsGrouping};
ghost use Rattle.px_connectors.specs.Messages.{pairs_of};
ghost use Rattle.px_store.specs.Joins.{message_tuples};
ghost use Rattle.px_connectors.specs.Files.{OwnOr, OwnOrEither, OwnOrSent};
ghost use Rattle.px_connectors.specs.Receiving.{AreReaders, GiveAll};
ghost use Rattle.px_connectors.specs.Views.{IsConnectorFile};

use crate::readers::PartReaders;
use px_core::{Disk, Stop, Turns};
use px_frames::Buf;
use px_pages::tags;
use px_program::{Group, Merge};
use px_stream::{Reader, Writer};

/// A group takes all pairs that a reader has left.
/// The errors are those of the group, and `Stop::Scratch` where the disk failed under the reader.
pub fn take_pairs<D: Disk, M: Merge, G: Group>(
    disk: &mut D,
    merge: &M,
    group: &mut G,
    from: &mut Reader,
    into: &mut Buf,
) -> Result<(), Stop>
    requires from_len { from.old.page_len ≡ (D.shown disk.old).page_len }
    requires group_len { (G.made group.old).frame_len ≡ (D.shown disk.old).page_len }
    requires limit { 13 + into.old.limit ≡ room_in (G.made group.old) }
    requires open { IsTrue (G.is_open group.old) }
    requires apart { IsOwn (G.made group.old) from.old.file → ⊥ }
    ensures took { OnOk result ((ins : List Entry) (l : Pairs) → ToGive (D.shown disk.old) from.old ins → AllValid (M.rule merge.now) (pairs_of ins) → G.took (D.shown disk.old) group.old (M.rule merge.now) l
        → G.took (D.shown disk.new) group.new (M.rule merge.now) (l ++ pairs_of ins)) }
    ensures open { OnOk result (IsTrue (G.is_open group.new)) }
    ensures ok { OnOk result (Clean (IsOwn (G.made group.old)) (D.shown disk.old) (D.shown disk.new)) }
    ensures err { IfErr result (StopsGrouping (OwnOr (G.made group.old) from.old.file)
        ((ins : List Entry) (l : Pairs) → ToGive (D.shown disk.old) from.old ins → AllValid (M.rule merge.now) (pairs_of ins) → G.took (D.shown disk.old) group.old (M.rule merge.now) l
        → IsTrue (has_wide_fold (M.rule merge.now) (room_in (G.made group.old)) (l ++ pairs_of ins)))
        (D.shown disk.old) (D.shown disk.new)) }
    ensures room { SameRoom into.old into.new }
    ensures from_file { from.new.file ≡ from.old.file }
    ensures from_len { from.new.page_len ≡ from.old.page_len }
    ensures stays { G.made group.new ≡ G.made group.old }
{
    while let Some(head) = from.next(disk, into)? {
        group.add(disk, merge, head.key, into.bytes())?;
    }
    Ok(())
}

// A group takes all pairs that readers have left, in the order in which they are given.
pub(crate) fn take_received<D: Disk, T: Turns, M: Merge, G: Group>(
    disk: &mut D,
    turns: &mut T,
    merge: &M,
    group: &mut G,
    from: &mut PartReaders,
    into: &mut Buf,
) -> Result<(), Stop>
    requires most { length from.old.readers.items ≤ 16 }
    requires are { AreReaders (D.shown disk.old).page_len from.old.readers.items }
    requires group_len { (G.made group.old).frame_len ≡ (D.shown disk.old).page_len }
    requires limit { 13 + into.old.limit ≡ room_in (G.made group.old) }
    requires open { IsTrue (G.is_open group.old) }
    requires apart { (f : ℕ) → IsOwn (G.made group.old) f → IsConnectorFile f → ⊥ }
    ensures took { OnOk result ((ls : ℕ → Pairs) → GiveAll (D.shown disk.old) from.old.readers.items ls → AllValid (M.rule merge.now) (all_of (length from.old.readers.items) ls)
        → G.took (D.shown disk.old) group.old (M.rule merge.now) []
        → (l : Pairs) × IsPermutation (all_of (length from.old.readers.items) ls) l × G.took (D.shown disk.new) group.new (M.rule merge.now) l) }
    ensures open { OnOk result (IsTrue (G.is_open group.new)) }
    ensures ok { OnOk result (Clean (IsOwn (G.made group.old)) (D.shown disk.old) (D.shown disk.new)) }
    ensures err { IfErr result (StopsGrouping (OwnOrSent (G.made group.old))
        ((ls : ℕ → Pairs) → GiveAll (D.shown disk.old) from.old.readers.items ls → AllValid (M.rule merge.now) (all_of (length from.old.readers.items) ls)
        → G.took (D.shown disk.old) group.old (M.rule merge.now) []
        → IsTrue (has_wide_fold (M.rule merge.now) (room_in (G.made group.old)) (all_of (length from.old.readers.items) ls)))
        (D.shown disk.old) (D.shown disk.new)) }
    ensures room { SameRoom into.old into.new }
    ensures are { AreReaders (D.shown disk.old).page_len from.new.readers.items }
    ensures readers { length from.new.readers.items ≡ length from.old.readers.items }
    ensures stays { G.made group.new ≡ G.made group.old }
{
    while let Some(vid) = from.next(disk, turns, into)? {
        group.add(disk, merge, vid, into.bytes())?;
    }
    Ok(())
}

// One more than a count that stands still at its end.
fn one_more(count: u64) -> u64
    ensures { result ≡ min (count + 1) (2 ^ 64 - 1) }
{
    count.saturating_add(1)
}

// A writer takes all folds that a group has left. It answers their number.
fn write_folds<D: Disk, M: Merge, G: Group>(
    disk: &mut D,
    merge: &M,
    group: &mut G,
    to: &mut Writer,
    into: &mut Buf,
) -> Result<u64, Stop>
    requires to_len { to.old.page_len ≡ (D.shown disk.old).page_len }
    requires group_len { (G.made group.old).frame_len ≡ (D.shown disk.old).page_len }
    requires limit { 13 + into.old.limit ≡ room_in (G.made group.old) }
    requires sealed { IsTrue (G.is_sealed group.old) }
    requires apart { IsOwn (G.made group.old) to.old.file → ⊥ }
    ensures took { OnOk result ((all rest : Pairs) (l : List Entry) → G.gives (D.shown disk.old) group.old (M.rule merge.now) all rest → Took (D.shown disk.old) to.old l → Took (D.shown disk.new) to.new (l ++ message_tuples rest)) }
    ensures count { IfOk result (λ n. (all rest : Pairs) → G.gives (D.shown disk.old) group.old (M.rule merge.now) all rest → n ≡ min (length rest) (2 ^ 64 - 1)) }
    ensures fits { OnOk result ((all rest : Pairs) → G.gives (D.shown disk.old) group.old (M.rule merge.now) all rest → has_wide_fold (M.rule merge.now) (room_in (G.made group.old)) all ≡ false) }
    ensures ok { OnOk result (Clean (OwnOr (G.made group.old) to.old.file) (D.shown disk.old) (D.shown disk.new)) }
    ensures err { IfErr result (StopsGrouping (OwnOr (G.made group.old) to.old.file)
        ((all rest : Pairs) → G.gives (D.shown disk.old) group.old (M.rule merge.now) all rest → IsTrue (has_wide_fold (M.rule merge.now) (room_in (G.made group.old)) all))
        (D.shown disk.old) (D.shown disk.new)) }
    ensures room { SameRoom into.old into.new }
    ensures first { OnOk result (to.new.first ≡ to.old.first) }
    ensures to_file { to.new.file ≡ to.old.file }
    ensures to_len { to.new.page_len ≡ to.old.page_len }
    ensures stays { G.made group.new ≡ G.made group.old }
{
    let mut count: u64 = 0;
    while let Some(vid) = group.next(disk, merge, into)? {
        to.put(disk, vid, tags::MESSAGE, into.bytes())?;
        count = one_more(count);
    }
    Ok(count)
}

// Writes the folds of all that a group took to a file, as messages. It answers their number.
pub(crate) fn give_folds<D: Disk, M: Merge, G: Group>(
    disk: &mut D,
    merge: &M,
    group: &mut G,
    to: &mut Writer,
    into: &mut Buf,
) -> Result<u64, Stop>
    requires to_len { to.old.page_len ≡ (D.shown disk.old).page_len }
    requires group_len { (G.made group.old).frame_len ≡ (D.shown disk.old).page_len }
    requires limit { 13 + into.old.limit ≡ room_in (G.made group.old) }
    requires open { IsTrue (G.is_open group.old) }
    requires apart { IsOwn (G.made group.old) to.old.file → ⊥ }
    ensures holds { OnOk result ((l : Pairs) → G.took (D.shown disk.old) group.old (M.rule merge.now) l → Took (D.shown disk.old) to.old []
        → Has (D.shown disk.new) to.new.file to.new.first to.new.pages (message_tuples (grouped (M.rule merge.now) l))) }
    ensures count { IfOk result (λ n. (l : Pairs) → G.took (D.shown disk.old) group.old (M.rule merge.now) l → n ≡ min (length (grouped (M.rule merge.now) l)) (2 ^ 64 - 1)) }
    ensures fits { OnOk result ((l : Pairs) → G.took (D.shown disk.old) group.old (M.rule merge.now) l → has_wide_fold (M.rule merge.now) (room_in (G.made group.old)) l ≡ false) }
    ensures ok { OnOk result (Clean (OwnOr (G.made group.old) to.old.file) (D.shown disk.old) (D.shown disk.new)) }
    ensures err { IfErr result (StopsGrouping (OwnOr (G.made group.old) to.old.file)
        ((l : Pairs) → G.took (D.shown disk.old) group.old (M.rule merge.now) l → IsTrue (has_wide_fold (M.rule merge.now) (room_in (G.made group.old)) l))
        (D.shown disk.old) (D.shown disk.new)) }
    ensures room { SameRoom into.old into.new }
    ensures first { OnOk result (to.new.first ≡ to.old.first) }
    ensures to_file { to.new.file ≡ to.old.file }
    ensures to_len { to.new.page_len ≡ to.old.page_len }
    ensures stays { G.made group.new ≡ G.made group.old }
{
    group.seal(disk, merge)?;
    let count = write_folds(disk, merge, group, to, into)?;
    to.finish(disk)?;
    Ok(count)
}

/// Writes the folds of all pairs that a reader has left to a file, as messages: one a vid, ascending. The group took nothing before, and the writer was started.
/// Its pages in the file are those from `first` on that the writer then names.
/// The errors are those of the group, and `Stop::Scratch` where the disk failed under the reader or the writer.
pub fn gather<D: Disk, M: Merge, G: Group>(
    disk: &mut D,
    merge: &M,
    group: &mut G,
    from: &mut Reader,
    to: &mut Writer,
    into: &mut Buf,
) -> Result<(), Stop>
    requires from_len { from.old.page_len ≡ (D.shown disk.old).page_len }
    requires to_len { to.old.page_len ≡ (D.shown disk.old).page_len }
    requires group_len { (G.made group.old).frame_len ≡ (D.shown disk.old).page_len }
    requires limit { 13 + into.old.limit ≡ room_in (G.made group.old) }
    requires open { IsTrue (G.is_open group.old) }
    requires from_apart { IsOwn (G.made group.old) from.old.file → ⊥ }
    requires to_apart { IsOwn (G.made group.old) to.old.file → ⊥ }
    requires apart { from.old.file ≢ to.old.file }
    ensures holds { OnOk result ((ins : List Entry) → ToGive (D.shown disk.old) from.old ins → AllValid (M.rule merge.now) (pairs_of ins) → G.took (D.shown disk.old) group.old (M.rule merge.now) [] → Took (D.shown disk.old) to.old []
        → Has (D.shown disk.new) to.new.file to.new.first to.new.pages (message_tuples (grouped (M.rule merge.now) (pairs_of ins)))) }
    ensures fits { OnOk result ((ins : List Entry) → ToGive (D.shown disk.old) from.old ins → AllValid (M.rule merge.now) (pairs_of ins) → G.took (D.shown disk.old) group.old (M.rule merge.now) []
        → has_wide_fold (M.rule merge.now) (room_in (G.made group.old)) (pairs_of ins) ≡ false) }
    ensures ok { OnOk result (Clean (OwnOr (G.made group.old) to.old.file) (D.shown disk.old) (D.shown disk.new)) }
    ensures err { IfErr result (StopsGrouping (OwnOrEither (G.made group.old) from.old.file to.old.file)
        ((ins : List Entry) → ToGive (D.shown disk.old) from.old ins → AllValid (M.rule merge.now) (pairs_of ins) → G.took (D.shown disk.old) group.old (M.rule merge.now) []
        → IsTrue (has_wide_fold (M.rule merge.now) (room_in (G.made group.old)) (pairs_of ins)))
        (D.shown disk.old) (D.shown disk.new)) }
    ensures room { SameRoom into.old into.new }
    ensures first { OnOk result (to.new.first ≡ to.old.first) }
    ensures from_file { from.new.file ≡ from.old.file }
    ensures from_len { from.new.page_len ≡ from.old.page_len }
    ensures to_file { to.new.file ≡ to.old.file }
    ensures to_len { to.new.page_len ≡ to.old.page_len }
    ensures stays { G.made group.new ≡ G.made group.old }
{
    take_pairs(disk, merge, group, from, into)?;
    give_folds(disk, merge, group, to, into)?;
    Ok(())
}
