use crate::Shape;
use std::test::Fail;

// The number and the place of a refusal; none where there is such a shape.
fn refusal(fanout: u32, height: u32) -> Option<(u8, u64)> {
    let denial = Shape::new(fanout, height).err()?;
    Some((denial.reason.number(), denial.place))
}

#[test]
fn limits(rt: HostRuntime) {
    assert_eq!(rt; refusal(2, 10), None);
    assert_eq!(rt; refusal(16, 3), None);
    assert_eq!(rt; refusal(1, 2), Some((11, 1)));
    assert_eq!(rt; refusal(17, 2), Some((11, 17)));
    assert_eq!(rt; refusal(2, 0), Some((12, 0)));
    assert_eq!(rt; refusal(2, 11), Some((12, 11)));
    assert_eq!(rt; refusal(3, 7), Some((13, 0)));
}

#[test]
fn places(rt: HostRuntime) -> Result<(), Fail> {
    let Ok(shape) = Shape::new(2, 3) else {
        return Err(Fail::new("refused"));
    };
    assert_eq!(rt; (shape.nodes(), shape.denominator()), (7, 21));
    assert_eq!(rt; (shape.child(2, 1), shape.child(3, 0)), (Some(6), None));
    assert_eq!(rt; (shape.parent(6), shape.parent(0)), (Some(2), None));
    assert_eq!(rt;
        (shape.height_of(0), shape.height_of(6)),
        (Some(3), Some(1))
    );
    assert_eq!(rt; (shape.wire(3), shape.wire(4)), (Some(6), None));
    Ok(())
}
