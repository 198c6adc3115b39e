use super::*;
use std::test::Fail;

#[test]
fn faults(rt: HostRuntime) {
    let coordinate = VarKind::Coordinate;
    let on_first = VarKind::Differential { on: 0 };
    for (vars, fault) in [
        ([VarKind::Constant; 13].as_slice(), SignatureFault::TooMany),
        (
            [VarKind::Plain, VarKind::Constant].as_slice(),
            SignatureFault::GroupOrder(1),
        ),
        (
            [VarKind::Constant, coordinate].as_slice(),
            SignatureFault::GroupOrder(1),
        ),
        (
            [VarKind::Constant, on_first].as_slice(),
            SignatureFault::BadCoordinate(1),
        ),
        (
            [coordinate, VarKind::Delay { on: 1, step: 1 }].as_slice(),
            SignatureFault::BadCoordinate(1),
        ),
        (
            [coordinate, on_first, on_first].as_slice(),
            SignatureFault::TwoDifferentials(2),
        ),
        (
            [coordinate, VarKind::Shift { on: 0, step: 0 }].as_slice(),
            SignatureFault::BadStep(1),
        ),
        (
            [coordinate, VarKind::Delay { on: 0, step: 1001 }].as_slice(),
            SignatureFault::BadStep(1),
        ),
        // the first variable with a fault decides, and of one variable the first fault
        (
            [VarKind::Shift { on: 0, step: 0 }, coordinate].as_slice(),
            SignatureFault::BadCoordinate(0),
        ),
        (
            [on_first, VarKind::Constant].as_slice(),
            SignatureFault::BadCoordinate(0),
        ),
    ] {
        assert_eq!(rt;
            Signature::new(vars, Order::DegLex).err(),
            Some(fault),
            "in {vars:?}"
        );
    }
}

#[test]
fn copies(rt: HostRuntime) -> Result<(), Fail> {
    let vars = [
        VarKind::Coordinate,
        VarKind::Coordinate,
        VarKind::Constant,
        VarKind::Differential { on: 0 },
        VarKind::Shift { on: 0, step: 1000 },
        VarKind::Delay { on: 1, step: 1 },
        VarKind::Plain,
    ];
    let signature = Signature::new(&vars, Order::DegRevLex)?.copy();
    assert_eq!(rt; signature.order(), Order::DegRevLex);
    assert_eq!(rt; signature.count(), 7);
    for (k, kind) in vars.iter().enumerate() {
        assert_eq!(rt; signature.kind(k), *kind, "at {k}");
    }
    Ok(())
}
