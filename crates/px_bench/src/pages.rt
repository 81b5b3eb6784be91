// Pages are filled with tuples and walked, each in its turn in the same frame.
ghost use Rattle.std.specs.Prelude.{◌≡◌, ◌<◌, ◌+◌, ◌^◌, length};
ghost use Rattle.px_pages.specs.Page.{IsPageLen, tuples_of, used_of};

use crate::tally::Tally;
use px_frames::Frame;
use px_pages::{PageReader, PageWriter, kinds, tags};
use std::alloc::{AllocError, Global};

/// The bytes of a page.
const PAGE: u32 = 262_144;

/// The body of a vertex with one edge, of weight 1.
pub fn body_with_edge(dst: u64) -> [u8; 21] {
    let mut body = [0; 21];
    body[8] = 1;
    body[9..17].copy_from_slice(&dst.to_be_bytes());
    body[20] = 1;
    body
}

// Makes it a page with as many tuples of this body as it has room for. Their keys count up.
fn fill(page: &mut [u8], first_key: u64, body: &[u8])
    requires page { IsPageLen (length page.old) }
    requires body { length body.now < 2 ^ 32 }
    ensures full { length page.new < used_of (tuples_of page.new) + 13 + length body.now }
{
    let mut writer = PageWriter::start(page, kinds::STREAM);
    let mut key = first_key;
    while writer.fits(body.len() as u32) {
        writer.append(page, key, tags::VERTEX, body);
        key = key.wrapping_add(1);
    }
}

// Goes over the tuples of a page, and sums their keys and lengths.
fn walk(page: &[u8]) -> Tally
    requires { IsPageLen (length page.now) }
    ensures { result.count ≡ length (tuples_of page.now) }
{
    let mut reader = PageReader::open(page);
    let mut count = 0;
    let mut sum: u64 = 0;
    while let Some(tuple) = reader.next(page) {
        count += 1;
        sum = sum.wrapping_add(tuple.key).wrapping_add(tuple.len.into());
    }
    Tally { count, sum }
}

/// Fills and walks so many pages. The keys of a page go on from those of the page before.
pub fn run(alloc: Global, pages: u64) -> Result<Tally, AllocError> {
    let mut frame = Frame::new(alloc, PAGE)?;
    let page = frame.bytes_mut();
    let mut tally = Tally::default();
    for number in 0..pages {
        fill(page, tally.count, &body_with_edge(number));
        let walked = walk(page);
        tally.add(walked.count, walked.sum);
    }
    Ok(tally)
}
