// Pages are made zero a block at a time, which is faster than byte by byte.
ghost use Rattle.std.specs.Prelude.{◌≡◌, ◌≤◌, ◌+◌, ◌++◌, length, take, drop};
ghost use Rattle.px_pages.specs.Page.{zeros};

const BLOCK: usize = 256;

// Makes all bytes zero.
pub(crate) fn zero(page: &mut [u8])
    ensures { page.new ≡ zeros (length page.old) }
{
    let blocks = page.len() / BLOCK;
    for i in 0..blocks {
        zero_block(page, i * BLOCK);
    }
    page[blocks * BLOCK..].fill(0);
}

// Makes a block zero.
fn zero_block(page: &mut [u8], at: usize)
    requires { at + 256 ≤ length page.old }
    ensures { page.new ≡ take at page.old ++ zeros 256 ++ drop (at + 256) page.old }
{
    page[at..at + BLOCK].copy_from_slice(&[0; BLOCK]);
}
