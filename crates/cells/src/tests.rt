use crate::{CARRY_LIMIT, CellKind, Components, Four, Kind, Pair, Single, UnknownKind};
use denial::{Denial, Reason};
use std::test::Fail;

fn pair(a: i64, b: i64) -> Result<Pair, Denial> {
    Pair::zero().set_component(0, a)?.set_component(1, b)
}

fn parts(cell: Result<Pair, Denial>) -> Option<(i64, i64)> {
    let cell = cell.ok()?;
    Some((cell.component(0).ok()?, cell.component(1).ok()?))
}

#[test]
fn carry_limit_on_both_sides(rt: HostRuntime) {
    let (high, low) = (CARRY_LIMIT, -CARRY_LIMIT);
    assert_eq!(rt; parts(pair(high, low)), Some((high, low)));
    assert!(rt;
        matches!(
            Single::zero().set_component(0, CARRY_LIMIT + 1),
            Err(Denial {
                reason: Reason::BeyondCarryLimit,
                place: 0
            })
        )
    );
    assert!(rt;
        matches!(
            pair(0, -CARRY_LIMIT - 1),
            Err(Denial {
                reason: Reason::BeyondCarryLimit,
                place: 1
            })
        )
    );
}

#[test]
fn index_past_the_width(rt: HostRuntime) {
    assert_eq!(rt; Four::zero().component(3).ok(), Some(0));
    assert!(rt;
        matches!(
            Four::zero().component(4),
            Err(Denial {
                reason: Reason::NoSuchComponent,
                place: 4
            })
        )
    );
    assert!(rt;
        matches!(
            Four::zero().set_component(4, CARRY_LIMIT + 1),
            Err(Denial {
                reason: Reason::NoSuchComponent,
                place: 4
            })
        )
    );
}

#[test]
fn arithmetic_of_pairs(rt: HostRuntime) -> Result<(), Fail> {
    let Ok(a) = pair(3, -5) else {
        assert!(rt; false);
        return Ok(());
    };
    let Ok(b) = pair(-4, -6) else {
        assert!(rt; false);
        return Ok(());
    };
    assert_eq!(rt; parts(a.sum(b)), Some((-1, -11)));
    assert_eq!(rt; parts(a.difference(b)), Some((7, 1)));
    assert_eq!(rt; parts(a.multiple(-2)), Some((-6, 10)));
    assert!(rt;
        matches!(
            b.multiple(i64::MIN),
            Err(Denial {
                reason: Reason::BeyondCarryLimit,
                place: 0
            })
        )
    );
    Ok(())
}

#[test]
fn kinds_by_number(rt: HostRuntime) {
    assert_eq!(rt; CellKind::try_from(1), Ok(CellKind::Single));
    assert_eq!(rt; CellKind::try_from(2), Ok(CellKind::Pair));
    assert_eq!(rt; CellKind::try_from(3), Ok(CellKind::Four));
    assert_eq!(rt; CellKind::try_from(0), Err(UnknownKind(0)));
    assert_eq!(rt; CellKind::try_from(4), Err(UnknownKind(4)));
}

#[test]
fn components_in_order(rt: HostRuntime) -> Result<(), Fail> {
    let mut components = Components::of(pair(3, -4)?);
    assert_eq!(rt; components.next(), Some(3));
    assert_eq!(rt; components.next(), Some(-4));
    assert_eq!(rt; components.next(), None);
    assert_eq!(rt; components.next(), None);
    Ok(())
}
