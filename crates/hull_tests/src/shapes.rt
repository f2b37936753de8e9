// Faults 15 and 16: the plane and the crossings of a ring.
use crate::tools::{Trial, bad, good};
use fault::shape::ShapeFault;
use solid::Corner;
use std::test::Fail;

// D is not zero, and every corner lies in its plane; three corners in line are fine.
#[test]
fn planes(rt: HostRuntime) -> Result<(), Fail> {
    let mut trial = Trial::new(&rt, rt.alloc())?;
    let a = Corner::new(1, [0, 0, 0]);
    let b = Corner::new(2, [100, 0, 0]);
    let c = Corner::new(3, [200, 0, 0]);
    let fault = ShapeFault::NotPlanar { face: 1 };
    trial.enter_all(&[
        bad(&[a, b, c], fault),
        bad(
            &[
                a,
                c,
                Corner::new(4, [200, 200, 0]),
                Corner::new(5, [0, 200, 1]),
            ],
            fault,
        ),
        bad(
            &[
                a,
                Corner::new(6, [200, 200, 0]),
                c,
                Corner::new(7, [0, 200, 0]),
            ],
            fault,
        ),
        good(&[
            a,
            b,
            c,
            Corner::new(8, [200, 200, 300]),
            Corner::new(9, [0, 200, 300]),
        ]),
    ]);
    Ok(())
}

// Edges that cross, touch, or run back over the one before are refused.
#[test]
fn crossings(rt: HostRuntime) -> Result<(), Fail> {
    let mut trial = Trial::new(&rt, rt.alloc())?;
    let a = Corner::new(1, [0, 0, 0]);
    let b = Corner::new(2, [8, 0, 0]);
    let c = Corner::new(3, [8, 8, 0]);
    let e = Corner::new(5, [0, 8, 0]);
    let fault = ShapeFault::Crossing { face: 1 };
    trial.enter_all(&[
        bad(
            &[
                a,
                Corner::new(2, [4, 4, 0]),
                Corner::new(3, [4, 0, 0]),
                Corner::new(4, [0, 2, 0]),
            ],
            fault,
        ),
        bad(&[a, b, c, Corner::new(4, [4, 0, 0]), e], fault),
        bad(
            &[a, b, Corner::new(3, [4, 0, 0]), Corner::new(4, [4, 8, 0])],
            fault,
        ),
        good(&[a, b, c, Corner::new(4, [4, 1, 0]), e]),
    ]);
    Ok(())
}
