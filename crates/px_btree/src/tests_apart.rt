// What no clause says of a page that is kept apart: it is put to as a page is, byte for byte.
ghost use Rattle.std.specs.Prelude.{◌≡◌, ◌<◌, ◌∷◌, [], length, IsTrue};
ghost use Rattle.px_pages.specs.Entry.{entry};
ghost use Rattle.px_pages.specs.Page.{IsPageLen};
ghost use Rattle.px_pages.specs.Place.{Turned};
ghost use Rattle.px_btree.specs.Put.{placed};

use crate::apart::Apart;
use crate::page::put_in;
use px_pages::{PageWriter, count, find, kinds, tags, used};
use std::test::Fail;

// A leaf with eight vertices, of the vids 2, 4, ..
fn write_leaf(page: &mut [u8])
    requires { length page.old ≡ 512 }
{
    let mut writer = PageWriter::start(page, kinds::BTREE_LEAF);
    writer.append(page, 2, tags::VERTEX, &[1; 9]);
    writer.append(page, 4, tags::VERTEX, &[2; 9]);
    writer.append(page, 6, tags::VERTEX, &[3; 17]);
    writer.append(page, 8, tags::VERTEX, &[4; 9]);
    writer.append(page, 10, tags::VERTEX, &[5; 9]);
    writer.append(page, 12, tags::VERTEX, &[6; 25]);
    writer.append(page, 14, tags::VERTEX, &[7; 9]);
    writer.append(page, 16, tags::VERTEX, &[8; 9]);
}

// Puts two tuples, one behind the other.
fn put_two(page: &mut [u8], first: u64, second: u64) -> bool
    requires page_len { IsPageLen (length page.old) }
    requires order { first < second }
    ensures { IsTrue result → Turned (λ es. placed (entry second 1 (6 ∷ 7 ∷ [])) (placed (entry first 1 (8 ∷ 9 ∷ [])) es)) page.old page.new }
{
    let place = find(page, first);
    let mut apart = Apart::open(page, place);
    if !apart.put(page, first, tags::VERTEX, &[8, 9]) {
        return false;
    }
    let both = apart.put(page, second, tags::VERTEX, &[6, 7]);
    apart.close(page);
    both
}

// The vids that are put, in order: some are there, some are not.
const PUT: &[u64] = &[2, 4, 5, 8, 12, 13, 14, 16, 17, 18, 19, 20, 21];

#[test]
fn ascending_puts_are_those_of_a_closed_page(rt: HostRuntime) -> Result<(), Fail> {
    let mut plain = [0; 512];
    write_leaf(&mut plain);
    let mut page = plain;
    let first = find(&page, 1);
    let mut apart = Apart::open(&mut page, first);
    let mut full = false;
    for &vid in PUT {
        let there = put_in(&mut plain, vid, tags::VERTEX, &[9; 33]);
        assert_eq!(rt; apart.put(&mut page, vid, tags::VERTEX, &[9; 33]), there);
        full = full || !there;
        let mut shut = page;
        apart.close(&mut shut);
        assert!(rt; shut == plain);
    }
    assert!(rt; full);
    Ok(())
}

#[test]
fn two_tuples_are_put_into_an_empty_page(rt: HostRuntime) -> Result<(), Fail> {
    let mut page = [0; 256];
    PageWriter::start(&mut page, kinds::BTREE_LEAF);
    assert!(rt; put_two(&mut page, 1, 2));
    assert_eq!(rt; (count(&page), used(&page)), (2, 62));
    assert_eq!(rt; find(&page, 2).at, 47);
    Ok(())
}
