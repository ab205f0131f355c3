//! What a new file begins as: a database that has no table, with small pages.

/// The bytes of a page of a new file. A commit writes each page that it touches whole, and digests it, and it touches one in each of some
/// ten trees: with pages of 4,096 bytes, which a new file has otherwise, a request takes a quarter more of the processor. A file keeps
/// the size that its first page names.
pub(crate) const PAGE_BYTES: usize = 1024;

/// The text with which a file of SQLite begins.
const MAGIC: &[u8] = b"SQLite format 3\0";

/// Of the header of such a file from byte 16 on: the bytes of a page, in two; that it is written and read with a log; no byte of a page kept
/// free; the fractions of a page that a row may fill.
const SIZES: &[u8] = &[4, 0, 2, 2, 0, 64, 32, 32];

/// One, in the four bytes of a number there.
const ONE: &[u8] = &[0, 0, 0, 1];

/// The form of the schema.
const SCHEMA_FORM: &[u8] = &[0, 0, 0, 4];

/// The version of SQLite that wrote it, 3.40.1: the first that this page was read by.
const VERSION: &[u8] = &[0, 0x2e, 0x63, 0x01];

/// The head of a page with no row of a table: its kind, no free block, no row, and that rows begin at its end.
const NO_ROWS: &[u8] = &[13, 0, 0, 0, 0, 4, 0, 0];

/// The only page of a database that has no table, as SQLite's documentation of its file format has it ("The Database Header", "B-tree
/// Pages"): one page, of which the count of changes is one, with texts in UTF-8.
pub(crate) fn first_page() -> [u8; PAGE_BYTES] {
    let mut page = [0; PAGE_BYTES];
    write_at(&mut page, 0, MAGIC);
    write_at(&mut page, 16, SIZES);
    let changes = 24;
    let pages = 28;
    let text_encoding = 56;
    let counted_at = 92;
    for place in [changes, pages, text_encoding, counted_at] {
        write_at(&mut page, place, ONE);
    }
    write_at(&mut page, 44, SCHEMA_FORM);
    write_at(&mut page, 96, VERSION);
    write_at(&mut page, 100, NO_ROWS);
    page
}

/// Writes bytes from a place on, as far as the page reaches.
fn write_at(page: &mut [u8; PAGE_BYTES], place: usize, bytes: &[u8]) {
    for (cell, byte) in page.iter_mut().skip(place).zip(bytes) {
        *cell = *byte;
    }
}
