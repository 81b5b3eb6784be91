// Files of pages in memory, by number.
ghost use Rattle.std.specs.Prelude.{◌≡◌, ◌≢◌, ◌≤◌, ℕ, [], length, slice_get, OnOk, OnErr, IsErr, IsErrOf};
ghost use Rattle.std.specs.Option.{option_map};
ghost use Rattle.px_core.specs.Shown.{written};
ghost use Rattle.px_memdisk.specs.Files.{AreLong, IsFull, bytes_of, page_or_zeros, pages_in};
ghost use Rattle.px_memdisk.specs.declared.files.Refusal.TheVariants.{Full, NoMemory};

use std::alloc::{AllocError, AllocFailed, Global};
use std::collections::BTreeMap;

/// The pages of a file, all of one length.
pub type Pages = Vec<Vec<u8>>;

// The most pages of a file.
const MOST_PAGES: usize = 1 << 40;

/// Why a page was not added.
pub enum Refusal {
    /// The file has the most pages.
    Full,
    /// There was no memory for one more.
    NoMemory,
}

impl From<AllocError> for Refusal {
    ghost from_gives = { λ _ e. e ≡ NoMemory };

    fn from(_error: AllocError) -> Refusal {
        Refusal::NoMemory
    }
}

impl<T: Drop> From<AllocFailed<T>> for Refusal {
    ghost from_gives = { λ _ e. e ≡ NoMemory };

    fn from(_error: AllocFailed<T>) -> Refusal {
        Refusal::NoMemory
    }
}

// Replaces a page in place, or adds one at the end. One past the end changes nothing.
fn put_page(alloc: Global, pages: &mut Pages, page: u64, from: &[u8]) -> Result<(), Refusal>
    requires { AreLong (length from.now) (bytes_of pages.old) }
    ensures ok { OnOk result (bytes_of pages.new ≡ written page from.now (bytes_of pages.old)) }
    ensures err { OnErr result (bytes_of pages.new ≡ bytes_of pages.old) }
    ensures full { IsFull page (bytes_of pages.old) → IsErrOf result Full }
    ensures no_memory { IsErrOf result NoMemory → (page ≡ length (bytes_of pages.old)) }
    ensures cause { IsErrOf result Full → IsFull page (bytes_of pages.old) }
{
    let page = page as usize;
    let end = pages.len();
    if page < end {
        pages[page].copy_from_slice(from);
    } else if page == end {
        if end >= MOST_PAGES {
            return Err(Refusal::Full);
        }
        pages.push(from.to_vec(alloc)?)?;
    }
    Ok(())
}

/// Writes a page to a file. Memory is taken for a page that is added, and for nothing else.
pub fn put(
    alloc: Global,
    files: &mut BTreeMap<u32, Pages>,
    file: u32,
    page: u64,
    from: &[u8],
) -> Result<(), Refusal>
    requires { AreLong (length from.now) (pages_in files.old file) }
    ensures ok { OnOk result (pages_in files.new file ≡ written page from.now (pages_in files.old file)) }
    ensures err { OnErr result (pages_in files.new file ≡ pages_in files.old file) }
    ensures others { (f : ℕ) → f ≢ file → pages_in files.new f ≡ pages_in files.old f }
    ensures full { IsFull page (pages_in files.old file) → IsErrOf result Full }
    ensures cause { IsErrOf result Full → IsFull page (pages_in files.old file) }
    ensures no_memory { IsErrOf result NoMemory → (page ≡ length (pages_in files.old file)) }
{
    if let Some(pages) = files.get_mut(&file) {
        return put_page(alloc, pages, page, from);
    }
    let mut pages = Vec::new(alloc);
    put_page(alloc, &mut pages, page, from)?;
    if !pages.is_empty() {
        files.insert(file, pages)?;
    }
    Ok(())
}

// A page of a file, unless it is past the end.
fn find_page(files: &BTreeMap<u32, Pages>, file: u32, page: u64) -> Option<&Vec<u8>>
    ensures { option_map (λ bytes. bytes.now.items) result ≡ slice_get (pages_in files.now file) page }
{
    let pages = files.get(&file)?;
    pages.get(page as usize)
}

/// Reads a page of a file, or zeros past its end.
pub fn read_page(files: &BTreeMap<u32, Pages>, file: u32, page: u64, into: &mut [u8])
    requires { AreLong (length into.old) (pages_in files.now file) }
    ensures { into.new ≡ page_or_zeros page (length into.old) (pages_in files.now file) }
{
    match find_page(files, file, page) {
        Some(bytes) => into.copy_from_slice(bytes),
        None => into.fill(0),
    }
}
