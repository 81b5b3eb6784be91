// The header of a page, in its first 32 bytes. Numbers are big-endian.
//
//     0       kind, one of `kinds`
//     1..4    zero
//     4..8    count of the tuples
//     8..12   used bytes: this header and the tuples
//     12..20  link: the number of a page plus one, or 0 for none
//     20..32  zero
//
// The tuples come after it (writer.rt), and the rest of the page is zero.
ghost use Rattle.std.specs.Prelude.{◌≡◌, ◌≤◌, ◌++◌, length, take, drop, slice_set};
ghost use Rattle.byteorder.specs.Endian.{big_bytes};
ghost use Rattle.px_pages.specs.Page.{IsPageLen, IsWritten, PageWriterView, tuples_of, kind_of, count_of, used_at, link_of};

use byteorder::{BigEndian, ByteOrder};

// The bytes of a header.
pub(crate) const HEADER: usize = 32;

const KIND: usize = 0;

const COUNT: usize = 4;

const USED: usize = 8;

const LINK: usize = 12;

/// What the page holds, as its header says.
pub fn kind(page: &[u8]) -> u8
    requires { IsPageLen (length page.now) }
    ensures { result ≡ kind_of page.now }
{
    page[KIND]
}

/// How many tuples the page has, as its header says.
pub fn count(page: &[u8]) -> u32
    requires { IsPageLen (length page.now) }
    ensures { result ≡ count_of page.now }
{
    BigEndian::read_u32(&page[COUNT..])
}

/// The bytes of the page that hold something, this header included, as it says.
pub fn used(page: &[u8]) -> u32
    requires { IsPageLen (length page.now) }
    ensures { result ≡ used_at page.now }
{
    BigEndian::read_u32(&page[USED..])
}

/// The number that was set as the page's link: that of a page plus one, or 0 for none.
pub fn link(page: &[u8]) -> u64
    requires { IsPageLen (length page.now) }
    ensures { result ≡ link_of page.now }
{
    BigEndian::read_u64(&page[LINK..])
}

/// Sets the page's link, and no other byte.
pub fn set_link(page: &mut [u8], link: u64)
    requires { IsPageLen (length page.old) }
    ensures link { link_of page.new ≡ link }
    ensures others { page.new ≡ take 12 page.old ++ big_bytes 8 link ++ drop 20 page.old }
    ensures kind { kind_of page.new ≡ kind_of page.old }
    ensures count { count_of page.new ≡ count_of page.old }
    ensures tuples { tuples_of page.new ≡ tuples_of page.old }
    ensures written { (w : PageWriterView) → IsWritten w page.old → IsWritten w page.new }
{
    BigEndian::write_u64(&mut page[LINK..], link);
}

// Writes the kind.
pub(crate) fn set_kind(page: &mut [u8], kind: u8)
    requires { 1 ≤ length page.old }
    ensures { page.new ≡ slice_set page.old 0 kind }
{
    page[KIND] = kind;
}

/// Writes the two numbers that change with each tuple: how many there are, and the bytes that hold something.
pub fn put_counts(page: &mut [u8], count: u32, used: u32)
    requires { 12 ≤ length page.old }
    ensures { page.new ≡ take 4 page.old ++ big_bytes 4 count ++ big_bytes 4 used ++ drop 12 page.old }
{
    BigEndian::write_u32(&mut page[COUNT..], count);
    BigEndian::write_u32(&mut page[USED..], used);
}
