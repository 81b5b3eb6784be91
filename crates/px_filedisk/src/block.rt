// The block of a page in its file: a stamp, and then the page.
ghost use Rattle.std.specs.Prelude.{◌≡◌, ◌≢◌, ◌+◌, ◌*◌, ◌^◌, ◌<◌, ◌≤◌, ℕ, List, length, Some, IsOk, IfOk, IfSome, OnOk, OnErr};
ghost use Rattle.std.specs.Option.{option_map};
ghost use Rattle.px_filedisk.specs.Block.{HasPage, IsPartlyPut, place, stamp, with_page};

use crate::files::Files;
use byteorder::{BigEndian, ByteOrder};
use std::io;
use std::io::ErrorKind;

// The length of a stamp.
const STAMP: u64 = 16;

// The stamp of a page: the file number, four zero bytes and the page number.
fn stamp_of(number: u32, page: u64) -> [u8; 16]
    ensures { result ≡ stamp number page }
{
    let mut stamp = [0; 16];
    BigEndian::write_u32(&mut stamp, number);
    BigEndian::write_u64(&mut stamp[8..], page);
    stamp
}

// Where the block of a page of so many bytes begins, unless it would end past the last offset.
fn place_of(page: u64, page_len: usize) -> io::Result<u64>
    requires { page_len + 16 < 2 ^ 64 }
    ensures within { IfOk result (λ at. at + 16 + page_len < 2 ^ 64) }
    ensures place { IfOk result (λ at. at ≡ place page page_len) }
    ensures ready { (page + 1) * (page_len + 16) < 2 ^ 64 → IsOk result }
{
    let block = page_len as u64 + STAMP;
    let end = page
        .checked_add(1)
        .and_then(|pages| pages.checked_mul(block));
    match end {
        Some(end) => Ok(end - block),
        None => Err(io::Error::from(ErrorKind::InvalidInput)),
    }
}

/// Reads a page. A block that is short or has another page's stamp is an error.
pub fn read_page<F: Files>(files: &mut F, number: u32, page: u64, into: &mut [u8]) -> io::Result<()>
    ensures page { OnOk result (IfSome (F.bytes files.old number) (HasPage number page into.new)) }
    ensures kept { (n : ℕ) → F.bytes files.new n ≡ F.bytes files.old n }
    ensures failed { OnOk result (F.failed files.new ≡ F.failed files.old) }
    ensures reads_work { F.reads_work files.old → F.reads_work files.new }
    ensures writes_work { (end : ℕ) → F.writes_work files.old end → F.writes_work files.new end }
    ensures ready { F.reads_work files.old → (page + 1) * (length into.old + 16) < 2 ^ 64 → (bytes file : List ℕ) → F.bytes files.old number ≡ Some file → length bytes ≡ length into.old → HasPage number page bytes file → IsOk result }
{
    let at = place_of(page, into.len())?;
    let mut stamp = [0; 16];
    files.read_at(number, at, &mut stamp)?;
    if stamp != stamp_of(number, page) {
        return Err(io::Error::from(ErrorKind::InvalidData));
    }
    files.read_at(number, at + STAMP, into)
}

/// Writes a page. After an error a part of its block may have been written.
#[tactic(auto, using(crate::proofs::Writing::both_written, crate::proofs::Writing::partly_stamped, crate::proofs::Writing::partly_put))]
pub fn write_page<F: Files>(files: &mut F, number: u32, page: u64, from: &[u8]) -> io::Result<()>
    ensures page { OnOk result (F.bytes files.new number ≡ option_map (with_page number page from.now) (F.bytes files.old number)) }
    ensures partly { OnErr result (IsPartlyPut number page from.now (F.bytes files.old number) (F.bytes files.new number)) }
    ensures others { (n : ℕ) → n ≢ number → F.bytes files.new n ≡ F.bytes files.old n }
    ensures failed { OnOk result (F.failed files.new ≡ F.failed files.old) }
    ensures reads_work { F.reads_work files.old → F.reads_work files.new }
    ensures writes_work { (end : ℕ) → F.writes_work files.old end → F.writes_work files.new end }
    ensures ready { (end : ℕ) → F.writes_work files.old end → (page + 1) * (length from.now + 16) ≤ end → (page + 1) * (length from.now + 16) < 2 ^ 64 → IsOk result }
{
    let at = place_of(page, from.len())?;
    files.write_at(number, at, &stamp_of(number, page))?;
    files.write_at(number, at + STAMP, from)
}
