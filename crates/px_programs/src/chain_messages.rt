// The bytes of the messages of chains, numbers big-endian:
//
//   note     1, a flag of 0 or 1, a vid in 8 bytes
//   many     2, nine zeros
//   answer   3, the length of the vids in 4 bytes, the vids in 8 bytes each and at least one, the edges as px_record lays them out
ghost use Rattle.std.specs.Prelude.{◌≡◌, ℕ, ◌<◌, ◌^◌, ◌++◌, ◌∷◌, List, length, IfSome, IsTrue};
ghost use Rattle.std.specs.Option.{option_map};
ghost use Rattle.byteorder.specs.Endian.{big_bytes};
ghost use Rattle.px_programs.specs.ChainMessages.{note, note_in, answer_in, are_vids, said_in, is_answer, is_message, chain_rule, chain_message_laws};
ghost use Rattle.px_programs.specs.ChainReading.{said, HasWholeEdges};

use crate::numbers::{bytes_of, number_of};
use byteorder::{BigEndian, ByteOrder};
use px_core::Vid;
use px_frames::{Buf, Wide};
use px_program::Merge;
use px_verdict::is_longer;

// There was more than one note.
const MANY: [u8; 10] = [2, 0, 0, 0, 0, 0, 0, 0, 0, 0];

/// What a message says.
#[derive(Clone, Copy)]
pub(crate) enum Message<'m> {
    Note { flag: bool, vid: Vid },
    Many,
    Answer { vids: &'m [u8], edges: &'m [u8] },
}

impl<'m> Message<'m> {
    /// None where the bytes are of another form.
    #[tactic(auto, unfolding(crate::specs::ChainMessages::said_in))]
    pub(crate) fn read(bytes: &'m [u8]) -> Option<Message<'m>>
        ensures said { option_map said result ≡ said_in bytes.now }
        ensures whole { IfSome result HasWholeEdges }
    {
        let (kind, rest) = bytes.split_first()?;
        match *kind {
            1 => read_note(rest),
            2 => (rest == &MANY[1..]).then_some(Message::Many),
            3 => read_answer(rest),
            _ => None,
        }
    }
}

// The note behind its first byte.
fn read_note<'m>(bytes: &'m [u8]) -> Option<Message<'m>>
    ensures said { option_map said result ≡ note_in bytes.now }
    ensures whole { IfSome result HasWholeEdges }
{
    let (flag, vid) = bytes.split_first()?;
    let vid = number_of(vid)?;
    (*flag < 2).then_some(Message::Note {
        flag: *flag == 1,
        vid,
    })
}

/// Whether so many bytes are one or more vids.
pub(crate) fn are_vids(len: usize) -> bool
    ensures { result ≡ are_vids len }
{
    len >= 8 && len % 8 == 0
}

// The answer behind its first byte.
fn read_answer<'m>(bytes: &'m [u8]) -> Option<Message<'m>>
    ensures said { option_map said result ≡ answer_in bytes.now }
    ensures whole { IfSome result HasWholeEdges }
{
    let (len, rest) = bytes.split_at_checked(4)?;
    let (vids, edges) = rest.split_at_checked(BigEndian::read_u32(len) as usize)?;
    (are_vids(vids.len()) && edges.len() % 12 == 0).then_some(Message::Answer { vids, edges })
}

/// The bytes of a note.
pub(crate) fn note(flag: bool, vid: Vid) -> [u8; 10]
    ensures bytes { result ≡ note flag vid }
    ensures valid { IsTrue (is_message result) }
{
    let mut bytes = [0; 10];
    bytes[0] = 1;
    bytes[1] = u8::from(flag);
    bytes[2..].copy_from_slice(&bytes_of(vid));
    bytes
}

/// What stands in an answer before so many bytes of vids.
pub(crate) fn answer_front(len: u32) -> [u8; 5]
    ensures { result ≡ 3 ∷ big_bytes 4 len }
{
    let mut bytes = [3; 5];
    BigEndian::write_u32(&mut bytes[1..], len);
    bytes
}

// Whether a message is an answer.
fn is_answer(bytes: &[u8]) -> bool
    ensures { result ≡ is_answer bytes.now }
{
    bytes.first() == Some(&3)
}

/// The combiner of chains: of more than one note only that is kept, an answer goes before notes, and the longer answer before the other.
#[derive(Clone, Copy, Debug, PartialEq, Eq)]
pub struct ChainMessages;

impl Merge for ChainMessages {
    ghost rule = { λ _. chain_rule };

    ghost laws = { λ _. chain_message_laws };

    fn merge_into(&self, buf: &mut Buf, bytes: &[u8]) -> Result<(), Wide> {
        match (is_answer(buf.bytes()), is_answer(bytes)) {
            (true, true) if is_longer(bytes, buf.bytes()) => buf.set(bytes),
            (true, _) => Ok(()),
            (false, true) => buf.set(bytes),
            (false, false) => buf.set(&MANY),
        }
    }
}
