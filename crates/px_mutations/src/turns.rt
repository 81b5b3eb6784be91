// Whose turn it is: the vids of the updates and those of the requests, merged.
ghost use Rattle.std.specs.Prelude.{◌≡◌, ◌≢◌, ◌≤◌, ◌<◌, ◌+◌, ◌||◌, [], List, length, true, IsTrue, OnOk, IfOk, IfErr, IfSome, OnSome, Some};
ghost use Rattle.std.specs.List.{AllByRecursion};
ghost use Rattle.px_core.specs.Shown.{Shown, NoFile, Only, Clean, Broke};
ghost use Rattle.px_meaning.specs.Graph.{Graph, IsMap, room_of};
ghost use Rattle.px_meaning.specs.Merge.{Pairs};
ghost use Rattle.px_record.specs.Body.{IsVertex, is_vertex_body, vertex_of};
ghost use Rattle.px_stream.specs.Counts.{left, SameReader};
ghost use Rattle.px_stream.specs.Stream.{ToGive};
ghost use Rattle.px_store.specs.Desks.{SameRoom};
ghost use Rattle.px_store.specs.Joins.{vertex_tuples};
ghost use Rattle.px_mutations.specs.Turns.{due_turn, key_in, first_vid, Comes, IsTurn, given_if, Takes};

use px_core::{Disk, Stop, Vid};
use px_record::VertexBuf;
use px_stream::{Head, Reader};

/// A vid that has an update, or the fold of its verdicts, or both.
#[derive(Clone, Copy, Debug, PartialEq, Eq)]
pub struct Turn {
    pub vid: Vid,
    pub has_update: bool,
    pub has_verdict: bool,
}

// The turn of the lesser of two vids: that of the next update and that of the next fold, as far as there are any.
fn turn_of(update: Option<Vid>, asked: Option<Vid>) -> Option<Turn>
    ensures { result ≡ due_turn update asked }
{
    let vid = match (update, asked) {
        (None, None) => return None,
        (Some(vid), None) | (None, Some(vid)) => vid,
        (Some(a), Some(b)) => a.min(b),
    };
    Some(Turn {
        vid,
        has_update: update == Some(vid),
        has_verdict: asked == Some(vid),
    })
}

fn key_of(head: Option<Head>) -> Option<Vid>
    ensures { result ≡ key_in head }
{
    match head {
        None => None,
        Some(head) => Some(head.key),
    }
}

// The vid of the next update, if there is one.
fn update_vid<SD: Disk>(scratch: &mut SD, updates: &mut Reader) -> Result<Option<Vid>, Stop>
    requires { updates.old.page_len ≡ (SD.shown scratch.old).page_len }
    ensures to_give { OnOk result ((cs : Graph) → ToGive (SD.shown scratch.old) updates.old (vertex_tuples cs) → ToGive (SD.shown scratch.new) updates.new (vertex_tuples cs)) }
    ensures first { IfOk result (λ o. (cs : Graph) → ToGive (SD.shown scratch.old) updates.old (vertex_tuples cs) → first_vid cs ≡ o) }
    ensures here { IfOk result (λ o. OnSome o (updates.new.here ≢ [])) }
    ensures left { left updates.new ≤ left updates.old }
    ensures ok { OnOk result (Clean NoFile (SD.shown scratch.old) (SD.shown scratch.new)) }
    ensures err { IfErr result (Broke Stop.Scratch (Only updates.old.file) (SD.shown scratch.old) (SD.shown scratch.new)) }
    ensures stays { SameReader updates.old updates.new }
{
    let head = updates.peek(scratch)?;
    Ok(key_of(head))
}

/// Whose turn is next, where the next fold is that of `asked`.
pub(crate) fn next_turn<SD: Disk>(
    scratch: &mut SD,
    updates: &mut Reader,
    asked: Option<Vid>,
) -> Result<Option<Turn>, Stop>
    requires { updates.old.page_len ≡ (SD.shown scratch.old).page_len }
    ensures to_give { OnOk result ((cs : Graph) → ToGive (SD.shown scratch.old) updates.old (vertex_tuples cs) → ToGive (SD.shown scratch.new) updates.new (vertex_tuples cs)) }
    ensures turn { IfOk result (λ o. (cs : Graph) (fs : Pairs) → IsMap cs → IsMap fs → ToGive (SD.shown scratch.old) updates.old (vertex_tuples cs) → first_vid fs ≡ asked → IsTurn o cs fs) }
    ensures here { IfOk result (λ o. IfSome o (λ t. t.has_update ≡ true → updates.new.here ≢ [])) }
    ensures some { IfOk result (λ o. IfSome o (λ t. (t.has_update || t.has_verdict) ≡ true)) }
    ensures asked { IfOk result (λ o. IfSome o (λ t. t.has_verdict ≡ true → asked ≡ Some t.vid)) }
    ensures left { left updates.new ≤ left updates.old }
    ensures ok { OnOk result (Clean NoFile (SD.shown scratch.old) (SD.shown scratch.new)) }
    ensures err { IfErr result (Broke Stop.Scratch (Only updates.old.file) (SD.shown scratch.old) (SD.shown scratch.new)) }
    ensures stays { SameReader updates.old updates.new }
{
    let update = update_vid(scratch, updates)?;
    Ok(turn_of(update, asked))
}

// Takes the vertex that a body spells. A body that no writer of updates wrote stands for the fresh one.
fn load_or_reset(vid: Vid, body: &[u8], first: &mut VertexBuf)
    ensures loaded { IsTrue (is_vertex_body body.now) → 13 + length body.now ≤ first.old.room → first.new.vertex ≡ vertex_of body.now }
    ensures vid { first.new.vid ≡ vid }
    ensures first { SameRoom first.old first.new }
{
    if !first.load(vid, body) {
        first.reset(vid);
    }
}

// Takes the next update, which is that of this vid.
fn read_update(vid: Vid, updates: &mut Reader, first: &mut VertexBuf)
    requires here { updates.old.here ≢ [] }
    ensures taken { (s : Shown) (cs : Graph) → first.old.room ≡ room_of s.page_len → AllByRecursion (λ e. IsVertex e.1) cs → ToGive s updates.old (vertex_tuples cs) → first_vid cs ≡ Some vid
        → (rest : Graph) × Takes vid (Some first.new.vertex) cs rest × ToGive s updates.new (vertex_tuples rest) }
    ensures vid { first.new.vid ≡ vid }
    ensures falls { left updates.new < left updates.old }
    ensures first { SameRoom first.old first.new }
    ensures file { updates.new.file ≡ updates.old.file }
    ensures len { updates.new.page_len ≡ updates.old.page_len }
{
    load_or_reset(vid, updates.peeked(), first);
    updates.pass();
}

/// Takes the update of a turn, where it has one.
pub(crate) fn take_update(turn: Turn, updates: &mut Reader, first: &mut VertexBuf)
    requires here { turn.has_update ≡ true → updates.old.here ≢ [] }
    ensures taken { (s : Shown) (cs : Graph) → first.old.room ≡ room_of s.page_len → AllByRecursion (λ e. IsVertex e.1) cs → ToGive s updates.old (vertex_tuples cs) → Comes turn.has_update turn.vid cs
        → (rest : Graph) × Takes turn.vid (given_if turn.has_update first.new.vertex) cs rest × ToGive s updates.new (vertex_tuples rest) }
    ensures vid { turn.has_update ≡ true → first.new.vid ≡ turn.vid }
    ensures falls { turn.has_update ≡ true → left updates.new < left updates.old }
    ensures left { left updates.new ≤ left updates.old }
    ensures first { SameRoom first.old first.new }
    ensures file { updates.new.file ≡ updates.old.file }
    ensures len { updates.new.page_len ≡ updates.old.page_len }
{
    if turn.has_update {
        read_update(turn.vid, updates, first);
    }
}
