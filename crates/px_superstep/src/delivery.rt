// The delivery of what was sent.
ghost use Rattle.std.specs.Prelude.{◌≡◌, ◌≤◌, ◌<◌, ℕ, false, length, OnOk, IfErr, IsTrue};
ghost use Rattle.px_core.specs.Parts.{to_part, all_of};
ghost use Rattle.px_core.specs.Shown.{Clean};
ghost use Rattle.px_meaning.specs.Graph.{room_of};
ghost use Rattle.px_meaning.specs.Merge.{Pairs, AllValid, grouped};
ghost use Rattle.px_meaning.specs.Step.{has_wide_fold};
ghost use Rattle.px_program.specs.Groups.{StopsGrouping};
ghost use Rattle.px_stream.specs.Stream.{Holds};
ghost use Rattle.px_store.specs.Joins.{message_tuples};
ghost use Rattle.px_superstep.specs.Benches.{HasBench};
ghost use Rattle.px_superstep.specs.Files.{msg_file, IsDeliveryFile, IsStepFile};
ghost use Rattle.px_superstep.specs.Phases.{Each};
ghost use Rattle.px_superstep.specs.Steps.{IsFoldBeyond};

use crate::gather::gather_part;
use px_connectors::Connector;
use px_core::{Disk, Stop, Turns};
use px_frames::Bank;
use px_program::{Group, Program};

/// The delivery to each partition, ascending, into the files of messages of a parity.
pub fn deliver_all<P: Program, G: Group, C: Connector, SD: Disk, T: Turns>(
    program: &P,
    bank: &mut Bank,
    connector: &mut C,
    parity: u32,
    msg_pages: &mut [u64],
    scratch: &mut SD,
    turns: &mut T,
) -> Result<(), Stop>
    requires bench { HasBench bank.old }
    requires parity { parity < 2 }
    requires parts { (C.view connector.old).parts ≡ length msg_pages.old }
    requires most { length msg_pages.old ≤ 16 }
    requires len { bank.old.frame_len ≡ (SD.shown scratch.old).page_len }
    requires connector_len { (C.view connector.old).frame_len ≡ (SD.shown scratch.old).page_len }
    ensures holds { OnOk result ((ls : ℕ → Pairs) → ((p : ℕ) → p < length msg_pages.old → C.sent connector.old (SD.shown scratch.old) p (ls p))
        → AllValid (P.meaning program.now).message (all_of (length msg_pages.old) ls)
        → Each msg_pages.new (λ q n. Holds (SD.shown scratch.new) (msg_file parity q) n (message_tuples (grouped (P.meaning program.now).message (to_part (length msg_pages.old) q (all_of (length msg_pages.old) ls)))))) }
    ensures fits { OnOk result ((ls : ℕ → Pairs) → ((p : ℕ) → p < length msg_pages.old → C.sent connector.old (SD.shown scratch.old) p (ls p))
        → AllValid (P.meaning program.now).message (all_of (length msg_pages.old) ls)
        → (q : ℕ) → q < length msg_pages.old → has_wide_fold (P.meaning program.now).message (room_of (SD.shown scratch.old).page_len) (to_part (length msg_pages.old) q (all_of (length msg_pages.old) ls)) ≡ false) }
    ensures ok { OnOk result (Clean IsDeliveryFile (SD.shown scratch.old) (SD.shown scratch.new)) }
    ensures err { IfErr result (StopsGrouping IsStepFile
        ((ls : ℕ → Pairs) → ((p : ℕ) → p < length msg_pages.old → C.sent connector.old (SD.shown scratch.old) p (ls p))
        → AllValid (P.meaning program.now).message (all_of (length msg_pages.old) ls)
        → IsFoldBeyond (P.meaning program.now).message (room_of (SD.shown scratch.old).page_len) (length msg_pages.old) (all_of (length msg_pages.old) ls))
        (SD.shown scratch.old) (SD.shown scratch.new)) }
    ensures pages { length msg_pages.new ≡ length msg_pages.old }
    ensures connector { C.view connector.new ≡ C.view connector.old }
    ensures bank { bank.new ≡ bank.old }
{
    for q in 0..msg_pages.len() as u32 {
        let to = 16 + 2 * q + parity;
        let pages = gather_part::<P, G, C, SD, T>(program, bank, connector, q, to, scratch, turns)?;
        msg_pages[q as usize] = pages;
    }
    Ok(())
}
