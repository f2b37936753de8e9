// Fault 17, and the counts of edges, volume and edge sum.
use crate::tools::{Trial, bad, good};
use fault::shape::ShapeFault;
use samples::answers::Answers;
use samples::tetrahedron::tetrahedron;
use std::test::Fail;

// A directed edge stands once; the fault names the ring's first one that is there, in the ring's direction.
#[test]
fn edges_stand_once(rt: HostRuntime) -> Result<(), Fail> {
    let mut trial = Trial::new(&rt, rt.alloc())?;
    let [a, b, c, d] = tetrahedron();
    trial.enter_all(&[
        good(&[a, c, b]),
        bad(
            &[c, b, a],
            ShapeFault::EdgeTwice {
                face: 2,
                from: 3,
                to: 2,
            },
        ),
        bad(
            &[d, c, b],
            ShapeFault::EdgeTwice {
                face: 2,
                from: 3,
                to: 2,
            },
        ),
        bad(
            &[d, b, a],
            ShapeFault::EdgeTwice {
                face: 2,
                from: 2,
                to: 1,
            },
        ),
        good(&[a, b, d]),
        good(&[a, d, c]),
        good(&[b, c, d]),
        bad(
            &[d, c, b],
            ShapeFault::EdgeTwice {
                face: 5,
                from: 4,
                to: 3,
            },
        ),
    ]);
    Ok(())
}

// The last face of the tetrahedron alone, with its reverse, cleared, and the tetrahedron.
#[test]
fn counts(rt: HostRuntime) -> Result<(), Fail> {
    let mut trial = Trial::new(&rt, rt.alloc())?;
    let [a, b, c, d] = tetrahedron();
    trial.enter(good(&[b, c, d]));
    assert_eq!(rt;
        Answers::from(&trial.hull),
        Answers {
            faces: 1,
            keys: 3,
            edges: 3,
            open_edges: 3,
            volume: 216000000,
            edge_sum: [360000, 360000, 360000]
        }
    );
    trial.enter(good(&[d, c, b]));
    assert_eq!(rt;
        Answers::from(&trial.hull),
        Answers {
            faces: 2,
            keys: 3,
            edges: 6,
            open_edges: 0,
            volume: 0,
            edge_sum: [0, 0, 0]
        }
    );
    trial.hull.clear();
    assert_eq!(rt;
        Answers::from(&trial.hull),
        Answers {
            faces: 0,
            keys: 0,
            edges: 0,
            open_edges: 0,
            volume: 0,
            edge_sum: [0, 0, 0]
        }
    );
    trial.enter_all(&[good(&[a, c, b]), good(&[a, b, d])]);
    assert_eq!(rt;
        Answers::from(&trial.hull),
        Answers {
            faces: 2,
            keys: 4,
            edges: 6,
            open_edges: 4,
            volume: 0,
            edge_sum: [0, -360000, -360000]
        }
    );
    trial.enter_all(&[good(&[a, d, c]), good(&[b, c, d])]);
    assert_eq!(rt;
        Answers::from(&trial.hull),
        Answers {
            faces: 4,
            keys: 4,
            edges: 12,
            open_edges: 0,
            volume: 216000000,
            edge_sum: [0, 0, 0]
        }
    );
    Ok(())
}
