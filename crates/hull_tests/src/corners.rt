// Fault 14: the number of corners, and the rules of each corner.
use crate::tools::{Trial, bad, good};
use fault::shape::ShapeFault;
use samples::plate::plate;
use solid::Corner;
use std::test::Fail;

// From 3 to 64 corners; a wrong number names no key, whatever else is wrong.
#[test]
fn corner_counts(rt: HostRuntime) -> Result<(), Fail> {
    let mut trial = Trial::new(&rt, rt.alloc())?;
    let two = [Corner::new(0, [0, 0, 0]), Corner::new(0, [0, 0, 0])];
    let three = plate(rt.alloc(), 1, 0, 3)?;
    let most = plate(rt.alloc(), 101, 1, 64)?;
    let more = plate(rt.alloc(), 201, 2, 65)?;
    trial.enter_all(&[
        bad(&[], ShapeFault::CornerCount { face: 1 }),
        bad(&two, ShapeFault::CornerCount { face: 1 }),
        good(three.as_slice()),
        good(most.as_slice()),
        bad(more.as_slice(), ShapeFault::CornerCount { face: 3 }),
    ]);
    Ok(())
}

// A key is at least 1, and each coordinate within ±50,000.
#[test]
fn keys_and_range(rt: HostRuntime) -> Result<(), Fail> {
    let mut trial = Trial::new(&rt, rt.alloc())?;
    let a = Corner::new(1, [0, 0, 0]);
    let b = Corner::new(2, [50000, 0, -50000]);
    let outside = ShapeFault::Corner { face: 1, key: 3 };
    trial.enter_all(&[
        bad(
            &[a, b, Corner::new(0, [0, 600, 0])],
            ShapeFault::Corner { face: 1, key: 0 },
        ),
        bad(&[a, b, Corner::new(3, [50001, 1, 0])], outside),
        bad(&[a, b, Corner::new(3, [1, -50001, 0])], outside),
        bad(&[a, b, Corner::new(3, [1, 0, 50001])], outside),
        bad(&[a, b, Corner::new(3, [1, 0, -2147483648])], outside),
        good(&[a, b, Corner::new(4294967295, [-50000, 50000, 50000])]),
    ]);
    Ok(())
}

// No key and no position twice, in the ring or against the hull; the first corner that breaks a rule is named.
#[test]
fn keys_and_positions_agree(rt: HostRuntime) -> Result<(), Fail> {
    let mut trial = Trial::new(&rt, rt.alloc())?;
    let a = Corner::new(1, [0, 0, 0]);
    let b = Corner::new(2, [600, 0, 0]);
    let c = Corner::new(3, [0, 600, 0]);
    let d = Corner::new(5, [0, 0, 600]);
    trial.enter_all(&[
        bad(
            &[a, b, c, Corner::new(2, [5, 5, 0])],
            ShapeFault::Corner { face: 1, key: 2 },
        ),
        bad(
            &[a, b, c, Corner::new(4, [600, 0, 0])],
            ShapeFault::Corner { face: 1, key: 4 },
        ),
        good(&[a, b, c]),
        bad(
            &[a, Corner::new(2, [600, 0, 1]), d],
            ShapeFault::Corner { face: 2, key: 2 },
        ),
        bad(
            &[a, Corner::new(4, [600, 0, 0]), d],
            ShapeFault::Corner { face: 2, key: 4 },
        ),
        bad(
            &[Corner::new(9, [0, 600, 0]), Corner::new(0, [0, 0, 9]), a],
            ShapeFault::Corner { face: 2, key: 9 },
        ),
        good(&[b, a, d]),
    ]);
    Ok(())
}
