// Edits of one page while a part of its tuples is kept apart: those before byte `at` stand in front as ever, the others at the very end of the frame,
// from byte `back` on, and what lies between holds any bytes. So a put between them moves no tuple. The header is that of the closed page.
ghost use Rattle.std.specs.Prelude.{◌≡◌, ◌≤◌, ◌<◌, ◌+◌, ◌-◌, ◌↔◌, ◌∷◌, ◌++◌, ℕ, List, length, take, drop, slice_get, Some, IsTrue, IsFalse, IfSome, IfNone};
ghost use Rattle.std.specs.List.{prefix_len, copy_within};
ghost use Rattle.byteorder.specs.Endian.{big_bytes};
ghost use Rattle.px_pages.specs.Entry.{Entry, IsEntry, AreEntries, entry, entry_bytes, bytes_of, size_of};
ghost use Rattle.px_meaning.specs.Graph.{front_len};
ghost use Rattle.px_pages.specs.Page.{IsPageLen, IsMade, writer_of, entry_of, zeros};
ghost use Rattle.px_pages.specs.Place.{IsPlace, is_below};
ghost use Rattle.px_btree.specs.Put.{placed, IsFullFor};
ghost use Rattle.px_btree.specs.Apart.{Within, KeepsApart, closed, below_len, same_len};

use byteorder::{BigEndian, ByteOrder};
use px_core::Vid;
use px_pages::{Place, Tuple, count, put_counts, put_entry, used};

// The bytes of a tuple before its body, and where its tag and its length stand among them.
const FRONT: usize = 13;

const TAG: usize = 8;

const LENGTH: usize = 9;

/// Where the tuples in front end, and where those that are kept apart begin.
#[derive(Clone, Copy, Debug, PartialEq, Eq)]
pub(crate) struct Apart {
    pub(crate) at: u32,
    pub(crate) back: u32,
}

// What a tuple says of itself: its key, and where it ends.
#[derive(Clone, Copy)]
struct Head {
    key: Vid,
    end: usize,
}

// The tuple that begins at a byte, or `None` where too few bytes are left for one. A length that goes past the end is cut.
fn head_at(page: &[u8], at: usize) -> Option<Head>
    requires { at ≤ length page.now }
    ensures none { IfNone result (length page.now < at + front_len) }
    ensures read { IfSome result (λ h. (e : Entry) (rest : List ℕ) → IsEntry e → drop at page.now ≡ entry_bytes e ++ rest → (h.key ≡ e.key) × (h.end ≡ at + size_of e)) }
    ensures after { IfSome result (λ h. at + front_len ≤ h.end) }
    ensures within { IfSome result (λ h. h.end ≤ length page.now) }
{
    if page.len() - at < FRONT {
        return None;
    }
    let rest = &page[at..];
    let written = BigEndian::read_u32(&rest[LENGTH..]) as usize;
    let len = written.min(rest.len() - FRONT);
    Some(Head {
        key: BigEndian::read_u64(rest),
        end: at + FRONT + len,
    })
}

// Where the first tuple from a byte on begins whose key is not below this one.
fn walk(page: &[u8], from: usize, key: Vid) -> usize
    requires { from ≤ length page.now }
    ensures passed { (es : List Entry) → AreEntries es → drop from page.now ≡ bytes_of es → result ≡ from + below_len key es }
    ensures after { from ≤ result }
    ensures within { result ≤ length page.now }
{
    let mut at = from;
    while let Some(head) = head_at(page, at) {
        if head.key >= key {
            return at;
        }
        at = head.end;
    }
    at
}

// Where the tuple that begins at a byte ends, if it has this key, else that byte.
fn skip(page: &[u8], at: usize, key: Vid) -> usize
    requires { at ≤ length page.now }
    ensures same { (es : List Entry) → AreEntries es → drop at page.now ≡ bytes_of es → result ≡ at + same_len key es }
    ensures after { at ≤ result }
    ensures within { result ≤ length page.now }
{
    match head_at(page, at) {
        Some(head) if head.key == key => head.end,
        _ => at,
    }
}

// The tuple that begins at a byte, if it has this key.
fn tuple_in(page: &[u8], at: usize, key: Vid) -> Option<Tuple>
    requires at { at ≤ length page.now }
    requires page { IsPageLen (length page.now) }
    ensures some { IfSome result (λ t. (es : List Entry) → AreEntries es → drop at page.now ≡ bytes_of es → slice_get es 0 ≡ Some (entry_of t page.now)) }
    ensures key { IfSome result (λ t. t.key ≡ key) }
    ensures none { IfNone result ((es : List Entry) (e : Entry) → AreEntries es → drop at page.now ≡ bytes_of es → slice_get es 0 ≡ Some e → e.key ≡ key → ⊥) }
    ensures within { IfSome result (λ t. t.at + t.len ≤ length page.now) }
{
    match head_at(page, at) {
        Some(head) if head.key == key => Some(Tuple {
            key,
            tag: page[at + TAG],
            at: (at + FRONT) as u32,
            len: (head.end - at - FRONT) as u32,
        }),
        _ => None,
    }
}

// Moves what stands from `start` to `end`, so that it begins at `at`.
fn shift(page: &mut [u8], start: usize, end: usize, at: usize)
    requires order { start ≤ end }
    requires end { end ≤ length page.old }
    requires room { at + (end - start) ≤ length page.old }
    ensures { page.new ≡ copy_within page.old start end at }
{
    page.copy_within(start..end, at);
}

// Makes the bytes from a place on zero.
fn wipe(page: &mut [u8], from: usize)
    requires { from ≤ length page.old }
    ensures { page.new ≡ take from page.old ++ zeros (length page.old - from) }
{
    page[from..].fill(0);
}

impl Apart {
    /// Keeps the tuples from a place on apart.
    pub(crate) fn open(page: &mut [u8], place: Place) -> Apart
        requires { IsPageLen (length page.old) }
        ensures apart { (len kind link : ℕ) (es : List Entry) → IsMade (writer_of len es) kind link es page.old → IsPlace place page.old → KeepsApart len kind link place.index es result page.new }
        ensures closed { (len kind link : ℕ) (es : List Entry) → IsMade (writer_of len es) kind link es page.old → IsPlace place page.old → closed result page.new ≡ page.old }
        ensures within { Within (length page.new) result }
    {
        let end = (used(page) as usize).min(page.len());
        let at = (place.at as usize).min(end);
        let back = page.len() - (end - at);
        shift(page, at, end, back);
        Apart {
            at: at as u32,
            back: back as u32,
        }
    }

    // Whether it can be that of a page of so many bytes.
    fn is_within(&self, page_len: usize) -> bool
        ensures { IsTrue result ↔ Within page_len self.now }
    {
        self.at <= self.back && self.back as usize <= page_len
    }

    /// Moves the tuples that are kept apart and whose keys are below this one to those in front.
    pub(crate) fn pass(&mut self, page: &mut [u8], key: Vid)
        requires { IsPageLen (length page.old) }
        ensures apart { (len kind link i : ℕ) (es : List Entry) → KeepsApart len kind link i es self.old page.old → KeepsApart len kind link (i + prefix_len (is_below key) (drop i es)) es self.new page.new }
        ensures same { closed self.new page.new ≡ closed self.old page.old }
        ensures within { Within (length page.old) self.old → Within (length page.new) self.new }
    {
        if !self.is_within(page.len()) {
            return;
        }
        let back = self.back as usize;
        let to = walk(page, back, key);
        shift(page, back, to, self.at as usize);
        self.at += (to - back) as u32;
        self.back = to as u32;
    }

    /// The first of the tuples that are kept apart, if it has this key.
    pub(crate) fn first(self, page: &[u8], key: Vid) -> Option<Tuple>
        requires { IsPageLen (length page.now) }
        ensures some { IfSome result (λ t. (len kind link i : ℕ) (es : List Entry) → KeepsApart len kind link i es self page.now → slice_get es i ≡ Some (entry_of t page.now)) }
        ensures key { IfSome result (λ t. t.key ≡ key) }
        ensures none { IfNone result ((len kind link i : ℕ) (es : List Entry) (e : Entry) → KeepsApart len kind link i es self page.now → slice_get es i ≡ Some e → e.key ≡ key → ⊥) }
        ensures within { IfSome result (λ t. t.at + t.len ≤ length page.now) }
    {
        if !self.is_within(page.len()) {
            return None;
        }
        tuple_in(page, self.back as usize, key)
    }

    /// Puts a tuple behind those whose keys are below its key, in the place of one with its key.
    /// Where the page has no room for it, it answers false, and the closed page is as before.
    pub(crate) fn put(&mut self, page: &mut [u8], key: Vid, tag: u8, body: &[u8]) -> bool
        requires { IsPageLen (length page.old) }
        ensures put { IsTrue result → (len kind link i : ℕ) (es : List Entry) → KeepsApart len kind link i es self.old page.old → i ≤ prefix_len (is_below key) es → KeepsApart len kind link (prefix_len (is_below key) es + 1) (placed (entry key tag body.now) es) self.new page.new }
        ensures kept { IsFalse result → (len kind link i : ℕ) (es : List Entry) → KeepsApart len kind link i es self.old page.old → i ≤ prefix_len (is_below key) es → KeepsApart len kind link (prefix_len (is_below key) es) es self.new page.new }
        ensures full { IsFalse result → (len kind link i : ℕ) (es : List Entry) → KeepsApart len kind link i es self.old page.old → i ≤ prefix_len (is_below key) es → IsFullFor (entry key tag body.now) (closed self.old page.old) }
        ensures same { IsFalse result → closed self.new page.new ≡ closed self.old page.old }
        ensures within { Within (length page.old) self.old → Within (length page.new) self.new }
    {
        self.pass(page, key);
        if !self.is_within(page.len()) {
            return false;
        }
        let back = self.back as usize;
        let to = skip(page, back, key);
        if to - (self.at as usize) < FRONT + body.len() {
            return false;
        }
        let tuples = count(page).saturating_add((to == back) as u32);
        self.write(page, to, tuples, key, tag, body);
        true
    }

    // Puts a tuple behind those in front, and lets the others begin at `to`, so that there are `count` tuples.
    fn write(&mut self, page: &mut [u8], to: usize, count: u32, key: Vid, tag: u8, body: &[u8])
        requires page_len { IsPageLen (length page.old) }
        requires room { self.old.at + (front_len + length body.now) ≤ to }
        requires within { to ≤ length page.old }
        ensures written { (len kind link : ℕ) (xs os ys : List Entry) → KeepsApart len kind link (length xs) (xs ++ (os ++ ys)) self.old page.old → to ≡ self.old.back + length (bytes_of os) → count ≡ length (xs ++ entry key tag body.now ∷ ys) → KeepsApart len kind link (length xs + 1) (xs ++ entry key tag body.now ∷ ys) self.new page.new }
        ensures at { self.new.at ≡ self.old.at + (front_len + length body.now) }
        ensures back { self.new.back ≡ to }
    {
        put_entry(&mut page[self.at as usize..], key, tag, body);
        self.at += (FRONT + body.len()) as u32;
        self.back = to as u32;
        put_counts(page, count, self.at + (page.len() - to) as u32);
    }

    /// Moves the tuples that are kept apart back behind those in front.
    pub(crate) fn close(self, page: &mut [u8])
        requires { IsPageLen (length page.old) }
        ensures closed { Within (length page.old) self → page.new ≡ closed self page.old }
        ensures other { (Within (length page.old) self → ⊥) → page.new ≡ page.old }
    {
        if !self.is_within(page.len()) {
            return;
        }
        let at = self.at as usize;
        let back = self.back as usize;
        let len = page.len();
        shift(page, back, len, at);
        wipe(page, at + (len - back));
    }
}
