// What no clause says: bytes from outside, and callers that stand on the clauses alone.
ghost use Rattle.std.specs.Prelude.{◌≡◌, ◌≤◌, ◌+◌, ◌↔◌, [], ◌∷◌, length, IsTrue};
ghost use Rattle.px_pages.specs.Entry.{entry};
ghost use Rattle.px_meaning.specs.Graph.{room_of};
ghost use Rattle.px_pages.specs.Page.{IsPageLen, tuples_of, link_of, left_of};

use crate::{
    Child, PageReader, PageWriter, Place, Tuple, child_at, child_count, children_to, count, find,
    find_end, find_from, insert, keep_back, keep_front, kind, kinds, link, remove, replace, room,
    set_link, tags, used,
};

// Two tuples that are no longer than room always fit an empty page.
fn put_two(page: &mut [u8], first: &[u8], second: &[u8])
    requires page_len { IsPageLen (length page.old) }
    requires first { 13 + length first.now ≤ room_of (length page.old) }
    requires second { 13 + length second.now ≤ room_of (length page.old) }
    ensures tuples { tuples_of page.new ≡ entry 1 0 first.now ∷ entry 2 0 second.now ∷ [] }
    ensures link { link_of page.new ≡ 9 }
{
    let mut writer = PageWriter::start(page, kinds::STREAM);
    writer.append(page, 1, tags::MESSAGE, first);
    set_link(page, 9);
    writer.append(page, 2, tags::MESSAGE, second);
}

// How many tuples a reader gives: all that the page has.
fn tally(page: &[u8]) -> u32
    requires { IsPageLen (length page.now) }
    ensures { result ≡ length (tuples_of page.now) }
{
    let mut reader = PageReader::open(page);
    let mut given = 0;
    while reader.next(page).is_some() {
        given += 1;
    }
    given
}

// Whether a reader has given all, which a copy of it finds out.
fn is_spent(reader: &PageReader, page: &[u8]) -> bool
    requires { IsPageLen (length page.now) }
    ensures { IsTrue result ↔ (left_of reader.now page.now ≡ []) }
{
    let mut copy = *reader;
    copy.next(page).is_none()
}

#[test]
fn a_page_of_ones_has_one_tuple(rt: HostRuntime) {
    let mut page = [0; 256];
    page.fill(255);
    let mut reader = PageReader::open(&page);
    let want = Tuple {
        key: u64::MAX,
        tag: 255,
        at: 45,
        len: 211,
    };
    assert_eq!(rt; reader.next(&page), Some(want));
    assert_eq!(rt; reader.next(&page), None);
    assert_eq!(rt;
        (kind(&page), count(&page), link(&page)),
        (255, u32::MAX, u64::MAX)
    );
}

#[test]
fn a_vertex_as_bytes(rt: HostRuntime) {
    let header = [1, 0, 0, 0, 0, 0, 0, 1, 0, 0, 0, 66];
    let front = [0, 0, 0, 0, 0, 0, 0, 1, 1, 0, 0, 0, 21];
    let body = [
        0, 0, 0, 0, 0, 0, 0, 0, 1, 0, 0, 0, 0, 0, 0, 0, 2, 0, 0, 0, 1,
    ];
    let mut page = [7; 256];
    let mut writer = PageWriter::start(&mut page, kinds::STREAM);
    writer.append(&mut page, 1, tags::VERTEX, &body);
    assert_eq!(rt; &page[..12], header.as_slice());
    assert_eq!(rt; &page[32..45], front.as_slice());
    assert_eq!(rt; &page[45..66], body.as_slice());
    assert!(rt; page[12..32].iter().all(|byte| *byte == 0));
    assert!(rt; page[66..].iter().all(|byte| *byte == 0));
}

#[test]
fn tuples_are_read_back(rt: HostRuntime) {
    let mut page = [7; 256];
    let mut writer = PageWriter::start(&mut page, kinds::BTREE_LEAF);
    writer.append(&mut page, 0, tags::MESSAGE, b"abc");
    writer.append(&mut page, 7, tags::TOMBSTONE, b"");
    writer.append(&mut page, 7, tags::REQUEST, b"d");
    writer.append(&mut page, u64::MAX, tags::CHILD, b"00000009");
    let mut reader = PageReader::open(&page);
    let want = [
        (0, 0, 45, 3),
        (7, 3, 61, 0),
        (7, 2, 74, 1),
        (u64::MAX, 5, 88, 8),
    ];
    for (key, tag, at, len) in want {
        assert!(rt; !is_spent(&reader, &page));
        assert_eq!(rt; reader.next(&page), Some(Tuple { key, tag, at, len }));
    }
    assert_eq!(rt; reader.next(&page), None);
    assert_eq!(rt;
        (kind(&page), count(&page), tally(&page)),
        (kinds::BTREE_LEAF, 4, 4)
    );
}

#[test]
fn a_link_is_set_and_read(rt: HostRuntime) {
    let mut page = [0; 256];
    put_two(&mut page, b"ab", b"c");
    for want in [1, u64::MAX, 0] {
        set_link(&mut page, want);
        assert_eq!(rt; link(&page), want);
    }
    assert_eq!(rt; tally(&page), 2);
}

#[test]
fn bodies_fit_up_to_the_last_byte(rt: HostRuntime) {
    let mut page = [0; 256];
    let mut writer = PageWriter::start(&mut page, kinds::STREAM);
    assert!(rt; writer.fits(211) && !writer.fits(212));
    writer.append(&mut page, 1, tags::MESSAGE, b"0123456789");
    assert!(rt; writer.fits(188) && !writer.fits(189) && !writer.fits(u32::MAX));
    assert_eq!(rt; (room(256), room(1_048_576)), (112, 524_272));
}

// A page with three tuples, of keys 2, 4 and 6 and bodies of one, two and three bytes.
fn write_three(page: &mut [u8])
    requires { length page.old ≡ 256 }
{
    let mut writer = PageWriter::start(page, kinds::BTREE_LEAF);
    writer.append(page, 2, tags::VERTEX, b"a");
    writer.append(page, 4, tags::VERTEX, b"bb");
    writer.append(page, 6, tags::VERTEX, b"ccc");
}

// Takes out the first tuple that is not below a key.
fn remove_first(page: &mut [u8], key: u64)
    requires { length page.old ≡ 256 }
{
    let place = find(page, key);
    if place.tuple.is_some() {
        remove(page, place);
    }
}

// Puts a tuple in its place, or answers false.
fn replace_first(page: &mut [u8], key: u64, body: &[u8]) -> bool
    requires { length page.old ≡ 256 }
{
    let place = find(page, key);
    place.tuple.is_some() && replace(page, place, key, tags::VERTEX, body)
}

// A page with three children.
fn write_children(page: &mut [u8])
    requires { length page.old ≡ 256 }
{
    let mut writer = PageWriter::start(page, kinds::BTREE_INNER);
    writer.append(page, 0, tags::CHILD, b"0000000A");
    writer.append(page, 10, tags::CHILD, b"0000000B");
    writer.append(page, 20, tags::CHILD, b"0000000C");
}

// Whether it is what a writer makes of tuples of these keys and bodies.
fn is_page_of(page: &[u8], tuples: &[(u64, &[u8])]) -> bool
    requires { length page.now ≡ 256 }
{
    let mut want = [0; 256];
    let mut writer = PageWriter::start(&mut want, kinds::BTREE_LEAF);
    for (key, body) in tuples {
        if body.len() > 200 || !writer.fits(body.len() as u32) {
            return false;
        }
        writer.append(&mut want, *key, tags::VERTEX, body);
    }
    page == want.as_slice()
}

#[test]
fn a_place_is_before_the_first_tuple_not_below(rt: HostRuntime) {
    let mut page = [0; 256];
    write_three(&mut page);
    for (key, index, at) in [(0, 0, 32), (2, 0, 32), (3, 1, 46), (6, 2, 61), (7, 3, 77)] {
        let place = find(&page, key);
        assert_eq!(rt; (place.index, place.at), (index, at));
        assert_eq!(rt; place.tuple.is_some(), index < 3);
        assert_eq!(rt; find_from(&page, place, key), place);
        assert_eq!(rt; find_from(&page, place, 7), find(&page, 7));
    }
    for (limit, index) in [(0, 0), (45, 0), (46, 1), (60, 1), (61, 2), (255, 3)] {
        assert_eq!(rt; find_end(&page, limit).index, index);
    }
    assert_eq!(rt; used(&page), 77);
}

#[test]
fn edits_leave_what_a_writer_makes(rt: HostRuntime) {
    let mut page = [0; 256];
    write_three(&mut page);
    let place = find(&page, 5);
    assert!(rt; insert(&mut page, place, 5, tags::VERTEX, b"dddd"));
    assert!(rt; is_page_of(&page, &[(2, b"a"), (4, b"bb"), (5, b"dddd"), (6, b"ccc")]));
    remove_first(&mut page, 4);
    assert!(rt; is_page_of(&page, &[(2, b"a"), (5, b"dddd"), (6, b"ccc")]));
    assert!(rt; replace_first(&mut page, 5, b""));
    assert!(rt; is_page_of(&page, &[(2, b"a"), (5, b""), (6, b"ccc")]));
    let place = find(&page, 6);
    let mut back = page;
    keep_front(&mut page, place);
    assert!(rt; is_page_of(&page, &[(2, b"a"), (5, b"")]));
    keep_back(&mut back, place);
    assert!(rt; is_page_of(&back, &[(6, b"ccc")]));
}

#[test]
fn a_tuple_fits_up_to_the_last_byte(rt: HostRuntime) {
    let mut page = [0; 256];
    write_three(&mut page);
    let body = [7; 167];
    let place = find(&page, 9);
    assert!(rt; !insert(&mut page, place, 9, tags::VERTEX, &body));
    assert!(rt; is_page_of(&page, &[(2, b"a"), (4, b"bb"), (6, b"ccc")]));
    assert!(rt; insert(&mut page, place, 9, tags::VERTEX, &body[1..]));
    assert!(rt; !replace_first(&mut page, 2, b"aa"));
    assert!(rt; replace_first(&mut page, 2, b"z"));
    assert_eq!(rt; (used(&page), count(&page)), (256, 4));
}

#[test]
fn a_page_of_any_bytes_is_edited_without_harm(rt: HostRuntime) {
    for byte in [1, 32, 255] {
        let mut page = [0; 256];
        page.fill(byte);
        for place in [
            find(&page, 0),
            find(&page, u64::MAX),
            Place {
                index: 9,
                at: 300,
                tuple: None,
            },
        ] {
            let mut copy = page;
            insert(&mut copy, place, 1, tags::VERTEX, b"a");
            find_from(&page, place, 1);
            keep_front(&mut copy, place);
            keep_back(&mut copy, place);
            if place.tuple.is_some() {
                remove(&mut copy, place);
            }
        }
        assert!(rt; children_to(&page, 5) <= child_count(&page));
    }
}

#[test]
fn a_child_is_found_in_halves(rt: HostRuntime) {
    let mut page = [0; 256];
    write_children(&mut page);
    for (key, before) in [(0, 1), (9, 1), (10, 2), (19, 2), (20, 3), (u64::MAX, 3)] {
        assert_eq!(rt; children_to(&page, key), before);
    }
    assert_eq!(rt; child_count(&page), 3);
    let want = Child {
        key: 20,
        page: u64::from_be_bytes(*b"0000000C"),
    };
    assert_eq!(rt; child_at(&page, 2), want);
}
