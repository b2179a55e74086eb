use crate::{first_line, nearest, node_line, refusal_line};
use cells::{Kind, Pair};
use denial::{Denial, Reason};
use std::test::Fail;

#[test]
fn halves_go_away_from_zero(rt: HostRuntime) {
    assert_eq!(rt; nearest(5, 2).ok(), Some(3));
    assert_eq!(rt; nearest(-3, 2).ok(), Some(-2));
    assert_eq!(rt; nearest(-1, 3).ok(), Some(0));
}

#[test]
fn limits(rt: HostRuntime) {
    assert_eq!(rt; nearest(i64::MIN, 1).ok(), Some(i64::MIN));
    assert_eq!(rt; nearest(i64::MAX, 1).ok(), Some(i64::MAX));
    assert_eq!(rt; nearest(i64::MIN, u64::MAX).ok(), Some(-1));
    assert!(rt;
        matches!(
            nearest(0, 0),
            Err(Denial {
                reason: Reason::ZeroDenominator,
                place: 0
            })
        )
    );
}

#[test]
fn a_first_line(rt: HostRuntime) {
    let mut out = [b'x'; 16];
    assert_eq!(rt; first_line(1, 2, 2, 3, &mut out).ok(), Some(14));
    assert_eq!(rt; out, *b"HCR 1 1 2 2 3\nxx");
    let mut short = [b'x'; 13];
    assert!(rt;
        matches!(
            first_line(1, 2, 2, 3, &mut short),
            Err(Denial {
                reason: Reason::BufferTooShort,
                place: 14
            })
        )
    );
    assert_eq!(rt; short, [b'x'; 13]);
}

fn pair(a: i64, b: i64) -> Option<Pair> {
    Pair::zero()
        .set_component(0, a)
        .ok()?
        .set_component(1, b)
        .ok()
}

#[test]
fn a_node_line(rt: HostRuntime) -> Result<(), Fail> {
    let Some(cell) = pair(-6, 6) else {
        assert!(rt; false);
        return Ok(());
    };
    let mut out = [b'x'; 13];
    assert_eq!(rt; node_line(2, cell, 4, &mut out).ok(), Some(12));
    assert_eq!(rt; out, *b"2 -6 6 -2 2\nx");
    assert!(rt;
        matches!(
            node_line(2, cell, 0, &mut [0; 1]),
            Err(Denial {
                reason: Reason::ZeroDenominator,
                place: 0
            })
        )
    );
    Ok(())
}

#[test]
fn a_refusal_line(rt: HostRuntime) {
    let mut out = [b'x'; 13];
    assert_eq!(rt;
        refusal_line(
            Denial {
                reason: Reason::WrongKind,
                place: 5,
            },
            &mut out,
        )
        .ok(),
        Some(13)
    );
    assert_eq!(rt; out, *b"refused 24 5\n");
}
