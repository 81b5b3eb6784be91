// Gives the tuples of a page, whoever wrote it.
ghost use Rattle.std.specs.Prelude.{◌≡◌, ◌<◌, ◌≤◌, ◌+◌, ◌-◌, ◌*◌, ◌↔◌, [], ◌∷◌, length, IsTrue, IfSome, IfNone};
ghost use Rattle.px_pages.specs.Page.{IsPageLen, tuples_of, used_of, count_of, left_of, entry_of};

use crate::header::{HEADER, count};
use crate::writer::FRONT;
use byteorder::{BigEndian, ByteOrder};
use px_core::Vid;
use std::marker::Model;

/// A tuple, and where its body lies in the page.
#[derive(Clone, Copy, Debug, PartialEq, Eq)]
pub struct Tuple {
    pub key: Vid,
    pub tag: u8,
    /// Where the body begins, from the front of the page.
    pub at: u32,
    /// The bytes of the body.
    pub len: u32,
}

/// Where a reader stands in its page. It keeps no borrow of the page: each call is handed it.
#[derive(Clone, Copy)]
pub struct PageReader {
    left: u32,
    at: u32,
}

impl Model for PageReader {
    ghost use Rattle.px_pages.specs.Page.{PageReaderView};

    ghost Value = { PageReaderView };

    ghost view = { λ r. record { left = r.left; at = r.at } };

    ghost inverse = { λ r. record { left = r.left; at = r.at } };
}

impl PageReader {
    /// A reader at the first tuple. The page may hold any bytes.
    pub fn open(page: &[u8]) -> PageReader
        requires { IsPageLen (length page.now) }
        ensures tuples { left_of result page.now ≡ tuples_of page.now }
        ensures front { result ≡ record { left = count_of page.now; at = 32 } }
        // However a page came to be, it holds no more than there is room for.
        ensures within { used_of (tuples_of page.now) ≤ length page.now }
        ensures few { 32 + 13 * length (tuples_of page.now) ≤ length page.now }
    {
        PageReader {
            left: count(page),
            at: HEADER as u32,
        }
    }

    // A reader behind so many tuples, which end at this byte.
    pub(crate) fn behind(page: &[u8], index: u32, at: u32) -> PageReader
        requires { IsPageLen (length page.now) }
        ensures { result ≡ record { left = count_of page.now - index; at = at } }
    {
        PageReader {
            left: count(page).saturating_sub(index),
            at,
        }
    }

    /// Whether `next` will give none.
    #[inline]
    pub fn at_end(&self, page: &[u8]) -> bool
        requires { IsPageLen (length page.now) }
        ensures { IsTrue result ↔ (left_of self.now page.now ≡ []) }
    {
        self.left == 0 || page.len() < self.at as usize + FRONT
    }

    /// The next tuple. `None` where as many were given as the header counts, or where too few bytes are left for one.
    /// A length that goes past the end of the page is cut to what is left.
    #[inline]
    pub fn next(&mut self, page: &[u8]) -> Option<Tuple>
        requires { IsPageLen (length page.now) }
        ensures none { IfNone result (left_of self.old page.now ≡ []) }
        ensures same { IfNone result (self.new ≡ self.old) }
        ensures some { IfSome result (λ t. left_of self.old page.now ≡ entry_of t page.now ∷ left_of self.new page.now) }
        ensures within { IfSome result (λ t. t.at + t.len ≤ length page.now) }
        ensures place { IfSome result (λ t. t.at ≡ self.old.at + 13) }
        ensures after { IfSome result (λ t. self.new.at ≡ t.at + t.len) }
        ensures falls { IfSome result (λ t. self.new.left + 1 ≡ self.old.left) }
    {
        let at = self.at as usize;
        if self.left == 0 || page.len() < at + FRONT {
            return None;
        }
        let rest = &page[at..];
        let key = BigEndian::read_u64(rest);
        let tag = rest[8];
        let written = BigEndian::read_u32(&rest[9..]) as usize;
        let len = written.min(rest.len() - FRONT);
        self.left -= 1;
        self.at = (at + FRONT + len) as u32;
        Some(Tuple {
            key,
            tag,
            at: (at + FRONT) as u32,
            len: len as u32,
        })
    }
}
