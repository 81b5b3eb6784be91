// Where a vertex puts what it sends, requests and contributes.
ghost use Rattle.std.specs.Prelude.{◌≡◌, ℕ, ◌<◌, Bool, List, [], Option, OnOk, IfErr, IsTrue};
ghost use Rattle.px_meaning.specs.Graph.{pair_size};
ghost use Rattle.px_program.specs.Posted.{Posted, MadeFor, sent, requested, contributed, gathered, with_piece, StaysOpen, Refuses};

use px_core::{Stop, Vid};

/// What takes a superstep's sends, requests and contributions. After a refusal it is spent: what it took may be lost.
pub trait Outbox: Drop {
    /// These are what was taken in this step. One that folds what it takes stands in this relation to many such lists,
    /// and one that is spent may stand in it to none.
    ghost took: { Self → Posted → Type 0 };

    /// The rules of merging, the room and the aggregate that it was made for, and what it names of that which it borrows. No call changes it.
    ghost made_for: { Self → MadeFor };

    /// How often the disk that it writes to has failed.
    ghost faults: { Self → ℕ };

    /// No call was refused.
    ghost is_open: { Self → Bool };

    /// The pieces of a payload that are gathered: a list of bytes, or none where they are too long to be sent.
    ghost pieces: { Self → Option (List ℕ) };

    /// Sends a payload to a vid, which sees it in the next superstep. Of a payload that is not valid nothing is said but that the call returns.
    fn send(&mut self, to: Vid, payload: &[u8]) -> Result<(), Stop>
        requires open { IsTrue (is_open self.old) }
        ensures ok { IsTrue ((made_for self.old).message.valid payload.now) → OnOk result ((p : Posted) → took self.old p → took self.new (sent to payload.now p)) }
        ensures open { OnOk result (StaysOpen (is_open self.new) (faults self.old) (faults self.new)) }
        ensures wide { (made_for self.old).room < pair_size payload.now → result ≡ Err Stop.Beyond }
        ensures err { IfErr result (Refuses (IsTrue ((made_for self.old).message.valid payload.now)) (took self.old) (took self.new) (sent to payload.now)
            (made_for self.old) (is_open self.new) (faults self.old) (faults self.new)) }
        ensures pieces { pieces self.new ≡ pieces self.old }
        ensures stays { made_for self.new ≡ made_for self.old };

    /// Gathers more bytes of a payload that lies in several places. Where its pair would be above room, the pieces are too long until `send_pieces`.
    fn piece(&mut self, bytes: &[u8])
        requires open { IsTrue (is_open self.old) }
        ensures pieces { pieces self.new ≡ with_piece (made_for self.old).room bytes.now (pieces self.old) }
        ensures posted { (p : Posted) → took self.old p → took self.new p }
        ensures open { IsTrue (is_open self.new) }
        ensures faults { faults self.new ≡ faults self.old }
        ensures stays { made_for self.new ≡ made_for self.old };

    /// Sends the pieces as one payload, as `send` does, and `Stop::Beyond` also comes where they are too long. No pieces are left.
    fn send_pieces(&mut self, to: Vid) -> Result<(), Stop>
        requires open { IsTrue (is_open self.old) }
        ensures ok { (b : List ℕ) → pieces self.old ≡ gathered (made_for self.old).room b → IsTrue ((made_for self.old).message.valid b)
            → OnOk result ((p : Posted) → took self.old p → took self.new (sent to b p)) }
        ensures open { OnOk result (StaysOpen (is_open self.new) (faults self.old) (faults self.new)) }
        ensures wide { (b : List ℕ) → pieces self.old ≡ gathered (made_for self.old).room b → (made_for self.old).room < pair_size b → result ≡ Err Stop.Beyond }
        ensures err { (b : List ℕ) → pieces self.old ≡ gathered (made_for self.old).room b → IfErr result (Refuses (IsTrue ((made_for self.old).message.valid b))
            (took self.old) (took self.new) (sent to b) (made_for self.old) (is_open self.new) (faults self.old) (faults self.new)) }
        ensures pieces { pieces self.new ≡ gathered (made_for self.old).room [] }
        ensures stays { made_for self.new ≡ made_for self.old };

    /// Requests a change of a vid's vertex, in effect in the next superstep. Of a verdict that is not valid nothing is said but that the call returns.
    fn request(&mut self, vid: Vid, verdict: &[u8]) -> Result<(), Stop>
        requires open { IsTrue (is_open self.old) }
        ensures ok { IsTrue ((made_for self.old).verdict.valid verdict.now) → OnOk result ((p : Posted) → took self.old p → took self.new (requested vid verdict.now p)) }
        ensures open { OnOk result (StaysOpen (is_open self.new) (faults self.old) (faults self.new)) }
        ensures wide { (made_for self.old).room < pair_size verdict.now → result ≡ Err Stop.Beyond }
        ensures err { IfErr result (Refuses (IsTrue ((made_for self.old).verdict.valid verdict.now)) (took self.old) (took self.new) (requested vid verdict.now)
            (made_for self.old) (is_open self.new) (faults self.old) (faults self.new)) }
        ensures pieces { pieces self.new ≡ pieces self.old }
        ensures stays { made_for self.new ≡ made_for self.old };

    /// Adds a number to the aggregate that all vertices see in the next superstep.
    fn contribute(&mut self, n: u64)
        requires open { IsTrue (is_open self.old) }
        ensures posted { (p : Posted) → took self.old p → took self.new (contributed n p) }
        ensures open { IsTrue (is_open self.new) }
        ensures faults { faults self.new ≡ faults self.old }
        ensures pieces { pieces self.new ≡ pieces self.old }
        ensures stays { made_for self.new ≡ made_for self.old };
}
