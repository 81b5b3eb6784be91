// Entries: edges turned round, each in twelve bytes:
//
//   vid       8 bytes, the highest first
//   weight    4 bytes, the highest first
//
// They ascend in byte order, and equal ones stand beside each other.
ghost use Rattle.std.specs.Prelude.{◌≡◌, ◌≤◌, ◌+◌, ◌-◌, ◌*◌, IsTrue, length, drop};
ghost use Rattle.std.specs.List.{copy_within};
ghost use Rattle.px_record.specs.Body.{edge_bytes};
ghost use Rattle.px_programs.specs.Entries.{entries_rule, entries_laws, entries_in, entries_of, count};
ghost use Rattle.px_programs.specs.InOrder.{is_after, is_ordered};
ghost use Rattle.px_programs.specs.Weaving.{entry_at, IsSpan, IsPut, woven};

use byteorder::{BigEndian, ByteOrder};
use px_core::Vid;
use px_frames::{Buf, Wide};
use px_program::Merge;

pub(crate) const ENTRY: usize = 12;

/// The message of one or more entries, a vid and a weight each, in order. Merge gives all entries of both.
#[derive(Clone, Copy, Debug, PartialEq, Eq)]
pub struct Entries;

impl Merge for Entries {
    ghost rule = { λ _. entries_rule };

    ghost laws = { λ _. entries_laws };

    fn merge_into(&self, buf: &mut Buf, bytes: &[u8]) -> Result<(), Wide> {
        let held = buf.bytes().len() / ENTRY;
        buf.append(bytes)?;
        weave(buf.bytes_mut(), held, bytes);
        Ok(())
    }
}

/// The one entry of an edge that comes from this vid.
pub(crate) fn entry_of(vid: Vid, weight: u32) -> [u8; ENTRY]
    ensures { result ≡ edge_bytes (vid, weight) }
{
    let mut entry = [0; ENTRY];
    BigEndian::write_u64(&mut entry, vid);
    BigEndian::write_u32(&mut entry[8..], weight);
    entry
}

// Puts more entries among the first `held` ones, both in order. Behind those there is room for as many.
fn weave(bytes: &mut [u8], held: usize, more: &[u8])
    requires { 12 * (held + count more.now) ≤ length bytes.old }
    ensures woven { IsTrue (is_ordered (entries_in held bytes.old)) → IsTrue (is_ordered (entries_of more.now)) → bytes.new ≡ woven held (count more.now) bytes.old more.now }
    ensures len { length bytes.new ≡ length bytes.old }
{
    let mut first = held;
    let mut left = more.len() / ENTRY;
    while left > 0 {
        left -= 1;
        first = put(bytes, first, left, &more[ENTRY * left..ENTRY * (left + 1)]);
    }
}

// Moves those of the first `held` entries that come after this one, so that `gap` more have room before
// it, and puts it there. Answers how many stay.
fn put(bytes: &mut [u8], held: usize, gap: usize, entry: &[u8]) -> usize
    requires room { 12 * (held + gap + 1) ≤ length bytes.old }
    requires entry { length entry.now ≡ 12 }
    ensures put { IsPut held gap result entry.now bytes.old bytes.new }
    ensures span { IsTrue (is_ordered (entries_in held bytes.old)) → IsSpan held bytes.old entry.now result result }
{
    let stay = end_of_upto(bytes, held, entry);
    let at = ENTRY * (stay + gap);
    shift(bytes, ENTRY * stay, ENTRY * held, at + ENTRY);
    bytes[at..at + ENTRY].copy_from_slice(entry);
    stay
}

// Moves what stands from `start` to `end`, so that it begins at `at`.
fn shift(bytes: &mut [u8], start: usize, end: usize, at: usize)
    requires order { start ≤ end }
    requires end { end ≤ length bytes.old }
    requires room { at + (end - start) ≤ length bytes.old }
    ensures { bytes.new ≡ copy_within bytes.old start end at }
{
    bytes.copy_within(start..end, at);
}

// Whether the entry at a place comes after this one.
fn is_after(bytes: &[u8], i: usize, entry: &[u8]) -> bool
    requires { 12 * (i + 1) ≤ length bytes.now }
    ensures { result ≡ is_after (entry_at i bytes.now) entry.now }
{
    &bytes[ENTRY * i..ENTRY * (i + 1)] > entry
}

// Two places among entries: those before `low` do not come after this one, and those from `high` on do.
#[derive(Clone, Copy)]
struct Span {
    low: usize,
    high: usize,
}

// Finds two places by steps that double from the back, so that the entries after this one are few steps.
fn near(bytes: &[u8], held: usize, entry: &[u8]) -> Span
    requires { 12 * held ≤ length bytes.now }
    ensures span { IsTrue (is_ordered (entries_in held bytes.now)) → IsSpan held bytes.now entry.now result.low result.high }
    ensures order { result.low ≤ result.high }
    ensures within { result.high ≤ held }
{
    let mut high = held;
    let mut step = 1;
    while step <= high {
        if !is_after(bytes, high - step, entry) {
            return Span {
                low: high - step + 1,
                high,
            };
        }
        high -= step;
        step *= 2;
    }
    Span { low: 0, high }
}

// How many of the first `held` entries do not come after this one, where they are in order.
fn end_of_upto(bytes: &[u8], held: usize, entry: &[u8]) -> usize
    requires { 12 * held ≤ length bytes.now }
    ensures span { IsTrue (is_ordered (entries_in held bytes.now)) → IsSpan held bytes.now entry.now result result }
    ensures within { result ≤ held }
{
    let Span { mut low, mut high } = near(bytes, held, entry);
    while low < high {
        let middle = low + (high - low) / 2;
        if is_after(bytes, middle, entry) {
            high = middle;
        } else {
            low = middle + 1;
        }
    }
    low
}
