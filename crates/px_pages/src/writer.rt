// Writes the tuples of a page. They come after its header (header.rt), from byte 32 on and without gaps.
// A tuple, from where it begins, with its numbers big-endian:
//
//     0..8   key
//     8      tag, one of `tags`
//     9..13  length of the body
//     13..   body
ghost use Rattle.std.specs.Prelude.{◌≡◌, ◌<◌, ◌≤◌, ◌+◌, ◌^◌, ◌↔◌, [], ◌∷◌, ◌++◌, ℕ, length, drop, IsTrue};
ghost use Rattle.byteorder.specs.Endian.{big_bytes};
ghost use Rattle.px_pages.specs.Entry.{entry, entry_bytes};
ghost use Rattle.px_meaning.specs.Graph.{room_of};
ghost use Rattle.px_pages.specs.Page.{IsPageLen, IsWritten, tuples_of, kind_of, count_of, link_of};

use crate::header::{HEADER, put_counts, set_kind};
use crate::zero::zero;
use byteorder::{BigEndian, ByteOrder};
use px_core::Vid;
use std::marker::Model;

// The bytes of a tuple before its body.
pub(crate) const FRONT: usize = 13;

const TAG: usize = 8;

const LENGTH: usize = 9;

/// The most bytes that a tuple may have, those before its body included, in pages of so many bytes.
/// Any two such tuples fit an empty page.
pub fn room(frame_bytes: u32) -> u32
    requires { IsPageLen frame_bytes }
    ensures value { result ≡ room_of frame_bytes }
    ensures two { (a b : ℕ) → 13 + a ≤ result → 13 + b ≤ result → 32 + (13 + a) + 13 + b ≤ frame_bytes }
{
    frame_bytes / 2 - HEADER as u32 / 2
}

/// Where a writer stands in its page. It keeps no borrow of the page: each call is handed it.
#[derive(Drop)]
pub struct PageWriter {
    count: u32,
    used: u32,
    len: u32,
}

impl Model for PageWriter {
    ghost use Rattle.px_pages.specs.Page.{PageWriterView};

    ghost Value = { PageWriterView };

    ghost view = { λ w. record { count = w.count; used = w.used; len = w.len } };
}

impl PageWriter {
    /// Makes a page of this kind without tuples and link, and a writer for it. All other bytes become zero.
    pub fn start(page: &mut [u8], kind: u8) -> PageWriter
        requires { IsPageLen (length page.old) }
        ensures written { IsWritten result page.new }
        ensures tuples { tuples_of page.new ≡ [] }
        ensures count { count_of page.new ≡ 0 }
        ensures kind { kind_of page.new ≡ kind }
        ensures link { link_of page.new ≡ 0 }
        ensures used { result.used ≡ 32 }
        ensures len { result.len ≡ length page.new }
    {
        zero(page);
        set_kind(page, kind);
        put_counts(page, 0, HEADER as u32);
        PageWriter {
            count: 0,
            used: HEADER as u32,
            len: page.len() as u32,
        }
    }

    /// Whether a tuple with a body of so many bytes has room in the page.
    pub fn fits(&self, body: u32) -> bool
        ensures { IsTrue result ↔ (self.now.used + 13 + body ≤ self.now.len) }
    {
        self.used as u64 + FRONT as u64 + body as u64 <= self.len as u64
    }

    /// Adds a tuple behind those of the page.
    pub fn append(&mut self, page: &mut [u8], key: Vid, tag: u8, body: &[u8])
        requires fits { self.old.used + 13 + length body.now ≤ self.old.len }
        requires written { IsWritten self.old page.old }
        ensures written { IsWritten self.new page.new }
        ensures tuples { tuples_of page.new ≡ tuples_of page.old ++ entry key tag body.now ∷ [] }
        ensures count { count_of page.new ≡ count_of page.old + 1 }
        ensures kind { kind_of page.new ≡ kind_of page.old }
        ensures link { link_of page.new ≡ link_of page.old }
        ensures used { self.new.used ≡ self.old.used + 13 + length body.now }
        ensures len { self.new.len ≡ self.old.len }
    {
        put_entry(&mut page[self.used as usize..], key, tag, body);
        self.count += 1;
        self.used += (FRONT + body.len()) as u32;
        put_counts(page, self.count, self.used);
    }
}

// Writes a tuple at the front.
pub fn put_entry(out: &mut [u8], key: Vid, tag: u8, body: &[u8])
    requires room { 13 + length body.now ≤ length out.old }
    requires short { length body.now < 2 ^ 32 }
    ensures { out.new ≡ entry_bytes (entry key tag body.now) ++ drop (13 + length body.now) out.old }
{
    put_front(out, key, tag, body.len() as u32);
    out[FRONT..FRONT + body.len()].copy_from_slice(body);
}

// Writes what stands before the body of a tuple.
fn put_front(out: &mut [u8], key: Vid, tag: u8, len: u32)
    requires { 13 ≤ length out.old }
    ensures { out.new ≡ big_bytes 8 key ++ tag ∷ big_bytes 4 len ++ drop 13 out.old }
{
    BigEndian::write_u64(out, key);
    out[TAG] = tag;
    BigEndian::write_u32(&mut out[LENGTH..], len);
}
