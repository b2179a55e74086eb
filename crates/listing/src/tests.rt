use crate::text::listing;
use std::alloc::{AllocError, Global};
use std::process::Abort;
use std::test::Fail;

fn table(
    heap: Global,
    kind: u8,
    fanout: u8,
    height: u8,
    counts: &[i32],
) -> Result<Vec<u8>, AllocError> {
    let mut bytes = Vec::new(heap);
    bytes.extend_from_slice(b"HCT\x00\x01")?;
    bytes.extend_from_slice(&[kind, fanout, height])?;
    for count in counts {
        bytes.extend_from_slice(&count.to_be_bytes())?;
    }
    Ok(bytes)
}

fn prints(rt: &impl Abort, heap: Global, table: &[u8], lines: &str) -> Result<(), Fail> {
    let text = listing(heap, table)?;
    assert_eq!(rt; text.as_slice(), lines.as_bytes());
    Ok(())
}

#[test]
fn three_levels(rt: HostRuntime) -> Result<(), Fail> {
    let table = table(rt.alloc(), 1, 2, 3, &[20, 9, 8, 2, 5, 6, 1])?;
    prints(
        &rt,
        rt.alloc(),
        table.as_slice(),
        "HCR 1 1 2 3 21\n0 384 18\n1 199 9\n2 185 9\n3 68 3\n4 131 6\n5 145 7\n6 40 2\n",
    )
}

#[test]
fn halves_and_signs(rt: HostRuntime) -> Result<(), Fail> {
    let table = table(rt.alloc(), 1, 3, 2, &[1, 0, -2, 1])?;
    prints(
        &rt,
        rt.alloc(),
        table.as_slice(),
        "HCR 1 1 3 2 4\n0 2 1\n1 2 1\n2 -6 -2\n3 6 2\n",
    )
}

#[test]
fn one_node(rt: HostRuntime) -> Result<(), Fail> {
    let single = table(rt.alloc(), 1, 2, 1, &[7])?;
    prints(&rt, rt.alloc(), single.as_slice(), "HCR 1 1 2 1 1\n0 7 7\n")?;
    let four = table(rt.alloc(), 3, 2, 1, &[1, 2, 3, -4])?;
    prints(
        &rt,
        rt.alloc(),
        four.as_slice(),
        "HCR 1 3 2 1 1\n0 1 2 3 -4 1 2 3 -4\n",
    )
}

#[test]
fn pairs(rt: HostRuntime) -> Result<(), Fail> {
    let table = table(rt.alloc(), 2, 2, 2, &[10, 1, 3, 0, 5, -2])?;
    prints(
        &rt,
        rt.alloc(),
        table.as_slice(),
        "HCR 1 2 2 2 3\n0 28 0 9 0\n1 11 3 4 1\n2 17 -3 6 -1\n",
    )
}

#[test]
fn refusals(rt: HostRuntime) -> Result<(), Fail> {
    prints(&rt, rt.alloc(), b"HCT", "refused 21 3\n")?;
    let other = table(rt.alloc(), 9, 2, 1, &[7])?;
    prints(&rt, rt.alloc(), other.as_slice(), "refused 24 5\n")?;
    let long = table(rt.alloc(), 1, 2, 1, &[7, 7])?;
    prints(&rt, rt.alloc(), long.as_slice(), "refused 26 12\n")?;
    let large = table(rt.alloc(), 1, 2, 2, &[7, 7, 1_000_001])?;
    prints(&rt, rt.alloc(), large.as_slice(), "refused 27 16\n")
}
