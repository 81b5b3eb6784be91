// Changes the tuples of a page in its place. It may hold any bytes: what is said of its tuples holds where a writer made it.
ghost use Rattle.std.specs.Prelude.{◌≡◌, ◌≤◌, ◌<◌, ◌+◌, ◌-◌, ◌++◌, ◌^◌, [], ◌∷◌, length, take, drop, slice_set, IsTrue, IsSome, IfSome, IsFalse, ◌↔◌, ℕ, List};
ghost use Rattle.std.specs.List.{copy_within, insert, remove};
ghost use Rattle.px_meaning.specs.Graph.{front_len};
ghost use Rattle.px_pages.specs.Entry.{Entry, entry};
ghost use Rattle.px_pages.specs.Page.{IsPageLen, IsMade, used_of, used_at, writer_of, zeros};
ghost use Rattle.px_pages.specs.Place.{IsPlace, Turned, Overflows};
ghost use Rattle.px_pages.specs.Gap.{FitsIn, Fills};

use crate::header::{HEADER, count, put_counts, used};
use crate::place::Place;
use crate::writer::{FRONT, put_entry};
use px_core::Vid;

// Bytes that give way: those from `from` to `to`, where the tuples end at `end`, and `len` bytes come in their place.
#[derive(Clone, Copy)]
struct Gap {
    from: usize,
    to: usize,
    end: usize,
    len: usize,
}

// Moves what stands from `start` to `end`, so that it begins at `at`.
fn shift(page: &mut [u8], start: usize, end: usize, at: usize)
    requires order { start ≤ end }
    requires end { end ≤ length page.old }
    requires room { at + (end - start) ≤ length page.old }
    ensures { page.new ≡ copy_within page.old start end at }
{
    page.copy_within(start..end, at);
}

// Makes the bytes from `from` to `to` zero.
fn wipe(page: &mut [u8], from: usize, to: usize)
    requires order { from ≤ to }
    requires end { to ≤ length page.old }
    ensures { page.new ≡ take from page.old ++ (zeros (to - from) ++ drop to page.old) }
{
    page[from..to].fill(0);
}

// Makes the gap, which holds any bytes. What comes after the tuples is zero, where it was so before.
fn make_gap(page: &mut [u8], gap: Gap)
    requires from { gap.from ≤ gap.to }
    requires to { gap.to ≤ gap.end }
    requires used { gap.end ≤ length page.old }
    requires room { gap.from + gap.len + (gap.end - gap.to) ≤ length page.old }
    ensures len { length page.new ≡ length page.old }
    ensures front { take gap.from page.new ≡ take gap.from page.old }
    ensures back { drop gap.end page.old ≡ zeros (length page.old - gap.end) → drop (gap.from + gap.len) page.new ≡ take (gap.end - gap.to) (drop gap.to page.old) ++ zeros (length page.old - (gap.from + gap.len + (gap.end - gap.to))) }
{
    if gap.from + gap.len == gap.to {
        return;
    }
    let end = gap.from + gap.len + (gap.end - gap.to);
    shift(page, gap.to, gap.end, gap.from + gap.len);
    wipe(page, end, gap.end.max(end));
}

impl Gap {
    // Whether a page of so many bytes has room for it.
    fn fits(&self, page_len: usize) -> bool
        requires page_len { page_len ≤ 1048576 }
        requires from { self.now.from < 2 ^ 32 }
        requires len { self.now.len < 2 ^ 63 + 32 }
        ensures { IsTrue result ↔ FitsIn self.now page_len }
    {
        self.from <= self.to
            && self.to <= self.end
            && self.end <= page_len
            && self.from + self.len + (self.end - self.to) <= page_len
    }
}

// Takes out what stands in the gap, where `count` tuples are left. A gap that the page has no room for is not made.
fn take_out(page: &mut [u8], gap: Gap, count: u32)
    requires page_len { IsPageLen (length page.old) }
    requires from { gap.from < 2 ^ 32 }
    requires empty { gap.len ≡ 0 }
    ensures { FitsIn gap (length page.old) → Fills gap count [] page.old page.new }
{
    if !gap.fits(page.len()) {
        return;
    }
    make_gap(page, gap);
    put_counts(page, count, (gap.end - (gap.to - gap.from)) as u32);
}

// Puts a tuple into the gap, so that there are `count` tuples.
fn put_into(page: &mut [u8], gap: Gap, count: u32, key: Vid, tag: u8, body: &[u8])
    requires page_len { IsPageLen (length page.old) }
    requires size { gap.len ≡ front_len + length body.now }
    requires fits { FitsIn gap (length page.old) }
    ensures { Fills gap count (entry key tag body.now ∷ []) page.old page.new }
{
    make_gap(page, gap);
    put_entry(&mut page[gap.from..], key, tag, body);
    put_counts(
        page,
        count,
        (gap.from + gap.len + (gap.end - gap.to)) as u32,
    );
}

// Where the tuples end by the header, but within the page.
fn end_of(page: &[u8]) -> usize
    requires { IsPageLen (length page.now) }
    ensures made { (len kind link : ℕ) (es : List Entry) → IsMade (writer_of len es) kind link es page.now → result ≡ used_of es }
    ensures within { result ≤ length page.now }
{
    (used(page) as usize).min(page.len())
}

// The bytes of the tuple that stands at a place.
fn size_at(place: Place) -> usize
    ensures size { IfSome place.tuple (λ t. result ≡ front_len + t.len) }
    ensures small { result < 2 ^ 33 }
{
    match place.tuple {
        Some(t) => FRONT + t.len as usize,
        None => 0,
    }
}

/// Puts a tuple at a place, before the one that stands there. Where the page has no room for it, it answers false and changes nothing.
pub fn insert(page: &mut [u8], place: Place, key: Vid, tag: u8, body: &[u8]) -> bool
    requires { IsPageLen (length page.old) }
    ensures put { IsTrue result → IsPlace place page.old → Turned (λ es. insert es place.index (entry key tag body.now)) page.old page.new }
    ensures same { IsFalse result → page.new ≡ page.old }
    ensures full { IsFalse result → IsPlace place page.old → Overflows 0 (front_len + length body.now) page.old }
{
    let at = place.at as usize;
    let gap = Gap {
        from: at,
        to: at,
        end: end_of(page),
        len: FRONT + body.len(),
    };
    if !gap.fits(page.len()) {
        return false;
    }
    let tuples = count(page).saturating_add(1);
    put_into(page, gap, tuples, key, tag, body);
    true
}

/// Puts a tuple at a place, instead of the one that stands there. Where the page has no room for it, it answers false and changes nothing.
pub fn replace(page: &mut [u8], place: Place, key: Vid, tag: u8, body: &[u8]) -> bool
    requires page_len { IsPageLen (length page.old) }
    requires some { IsSome place.tuple }
    ensures put { IsTrue result → IsPlace place page.old → Turned (λ es. slice_set es place.index (entry key tag body.now)) page.old page.new }
    ensures same { IsFalse result → page.new ≡ page.old }
    ensures full { IsFalse result → IsPlace place page.old → IfSome place.tuple (λ t. Overflows t.len (length body.now) page.old) }
{
    let at = place.at as usize;
    let gap = Gap {
        from: at,
        to: at + size_at(place),
        end: end_of(page),
        len: FRONT + body.len(),
    };
    if !gap.fits(page.len()) {
        return false;
    }
    let tuples = count(page);
    put_into(page, gap, tuples, key, tag, body);
    true
}

/// Takes out the tuple that stands at a place.
pub fn remove(page: &mut [u8], place: Place)
    requires page_len { IsPageLen (length page.old) }
    requires some { IsSome place.tuple }
    ensures { IsPlace place page.old → Turned (λ es. remove es place.index) page.old page.new }
{
    let at = place.at as usize;
    let gap = Gap {
        from: at,
        to: at + size_at(place),
        end: end_of(page),
        len: 0,
    };
    let tuples = count(page).saturating_sub(1);
    take_out(page, gap, tuples);
}

/// Keeps the tuples before a place alone.
pub fn keep_front(page: &mut [u8], place: Place)
    requires { IsPageLen (length page.old) }
    ensures { IsPlace place page.old → Turned (take place.index) page.old page.new }
{
    let end = end_of(page);
    let gap = Gap {
        from: place.at as usize,
        to: end,
        end,
        len: 0,
    };
    take_out(page, gap, place.index);
}

/// Keeps the tuples from a place on alone.
pub fn keep_back(page: &mut [u8], place: Place)
    requires { IsPageLen (length page.old) }
    ensures { IsPlace place page.old → Turned (drop place.index) page.old page.new }
{
    let gap = Gap {
        from: HEADER,
        to: place.at as usize,
        end: end_of(page),
        len: 0,
    };
    let tuples = count(page).saturating_sub(place.index);
    take_out(page, gap, tuples);
}
