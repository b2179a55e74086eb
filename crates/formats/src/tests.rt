// Tables of pairs, of fan-out 2 and height 2.
use crate::{cut, load_table, read_table, write_publication};
use cells::{Kind, Pair};
use shapes::Shape;
use std::test::Fail;

// The header, then 9 and -2, 1,000,000 and -1,000,000, 256 and 0.
const GOOD: [u8; 32] =
    *b"HCT\0\x01\x02\x02\x02\0\0\0\x09\xff\xff\xff\xfe\0\x0f\x42\x40\xff\xf0\xbd\xc0\0\0\x01\0\0\0\0\0";

// The number and the place of a refusal to read a table into so many cells; two zeros where it is read.
fn refusal(table: &[u8], cells: &mut [Pair]) -> (u8, u64) {
    match read_table(table, cells) {
        Ok(_) => (0, 0),
        Err(denial) => (denial.reason.number(), denial.place),
    }
}

fn refusal_with(i: usize, byte: u8) -> (u8, u64) {
    let mut table = GOOD;
    let mut cells = [Pair::zero(); 3];
    if i < table.len() {
        table[i] = byte;
    }
    refusal(&table, &mut cells)
}

fn components(cell: Pair) -> Option<(i64, i64)> {
    Some((cell.component(0).ok()?, cell.component(1).ok()?))
}

#[test]
fn reads_negative_components(rt: HostRuntime) -> Result<(), Fail> {
    let mut cells = [Pair::zero(); 4];
    let Ok(shape) = read_table(&GOOD, &mut cells) else {
        return Err(Fail::new("refused"));
    };
    assert_eq!(rt; (shape.fanout, shape.height), (2, 2));
    assert_eq!(rt; components(cells[0]), Some((9, -2)));
    assert_eq!(rt; components(cells[1]), Some((1_000_000, -1_000_000)));
    assert_eq!(rt; components(cells[2]), Some((256, 0)));
    assert_eq!(rt; components(cells[3]), Some((0, 0)));
    Ok(())
}

#[test]
fn refuses_headers(rt: HostRuntime) {
    let mut cells = [Pair::zero(); 2];
    assert_eq!(rt; refusal(&GOOD[0..7], &mut cells), (21, 7));
    assert_eq!(rt; refusal_with(2, 0x52), (22, 2));
    assert_eq!(rt; refusal_with(3, 1), (23, 3));
    assert_eq!(rt; refusal_with(5, 1), (24, 5));
    assert_eq!(rt; refusal_with(6, 17), (11, 17));
    assert_eq!(rt; refusal_with(7, 0), (12, 0));
    let mut wide = GOOD;
    wide[6] = 16;
    wide[7] = 4;
    assert_eq!(rt; refusal(&wide, &mut cells), (13, 0));
    assert_eq!(rt; refusal(&GOOD, &mut cells), (14, 1));
}

// The number and the place of a refusal to load the table with one byte changed onto the shape of fan-out 2 and height 2.
fn load_refusal_with(at: usize, byte: u8) -> (u8, u64) {
    let mut table = GOOD;
    if at < table.len() {
        table[at] = byte;
    }
    let mut cells = [Pair::zero(); 4];
    let loaded = match Shape::new(2, 2) {
        Ok(shape) => load_table(&table, shape, &mut cells),
        Err(denial) => Err(denial),
    };
    match loaded {
        Ok(()) => (0, 0),
        Err(denial) => (denial.reason.number(), denial.place),
    }
}

#[test]
fn loads_one_shape(rt: HostRuntime) {
    assert_eq!(rt; load_refusal_with(6, 2), (0, 0));
    assert_eq!(rt; load_refusal_with(5, 1), (24, 5));
    assert_eq!(rt; load_refusal_with(6, 3), (25, 6));
    assert_eq!(rt; load_refusal_with(6, 17), (25, 6));
    assert_eq!(rt; load_refusal_with(7, 0), (25, 7));
    assert_eq!(rt; load_refusal_with(19, 0x41), (27, 16));
}

#[test]
fn refuses_bodies(rt: HostRuntime) {
    let mut cells = [Pair::zero(); 3];
    assert_eq!(rt; refusal(&GOOD[0..31], &mut cells), (26, 32));
    assert_eq!(rt; refusal_with(19, 0x41), (27, 16));
    assert_eq!(rt; refusal_with(23, 0xbf), (27, 20));
}

// The number and the place of a refusal to cut a node; two zeros where it is cut.
fn cut_refusal(publication: &[u8], node: u32) -> (u8, u64) {
    match cut::<Pair>(publication, node) {
        Ok(_) => (0, 0),
        Err(denial) => (denial.reason.number(), denial.place),
    }
}

#[test]
fn publishes_and_cuts(rt: HostRuntime) -> Result<(), Fail> {
    let mut cells = [Pair::zero(); 3];
    let Ok(shape) = read_table(&GOOD, &mut cells) else {
        return Err(Fail::new("refused"));
    };
    let mut out = [7u8; 65];
    assert_eq!(rt;
        write_publication(shape, shape.denominator(), &cells, &mut out).ok(),
        Some(64)
    );
    assert_eq!(rt; (out[2], out[15], out[31], out[64]), (b'R', 3, 0xfe, 7));
    let Ok(part) = cut::<Pair>(&out[0..64], 1) else {
        return Err(Fail::new("refused"));
    };
    assert_eq!(rt; part.offset, 32);
    assert_eq!(rt;
        part.bytes,
        b"\0\0\0\0\0\x0f\x42\x40\xff\xff\xff\xff\xff\xf0\xbd\xc0".as_slice()
    );
    assert_eq!(rt; cut_refusal(&out, 1), (26, 64));
    assert_eq!(rt; cut_refusal(&out[0..64], 3), (31, 3));
    assert_eq!(rt; cut_refusal(&out[0..15], 0), (21, 15));
    Ok(())
}
