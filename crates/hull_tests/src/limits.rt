// Fault 18: at most 512 faces, 1,024 keys and 3,072 directed edges.
use crate::tools::{Trial, bad, good};
use fault::shape::ShapeFault;
use samples::plate::plate;
use solid::Corner;
use std::alloc::{AllocError, Global};
use std::test::Fail;

// A fan of triangles round one corner: 512 faces with 514 keys. 17 comes before 18.
#[test]
fn faces(rt: HostRuntime) -> Result<(), Fail> {
    let mut trial = Trial::new(&rt, rt.alloc())?;
    let hub = Corner::new(1, [0, 100, 0]);
    for i in 0..512u16 {
        let x = i32::from(i);
        let key = u32::from(i) + 2;
        trial.enter(good(&[
            hub,
            Corner::new(key, [x, 0, 0]),
            Corner::new(key + 1, [x + 1, 0, 0]),
        ]));
    }
    trial.enter_all(&[
        bad(
            &[
                hub,
                Corner::new(514, [512, 0, 0]),
                Corner::new(515, [513, 0, 0]),
            ],
            ShapeFault::Full { face: 513 },
        ),
        bad(
            &[hub, Corner::new(2, [0, 0, 0]), Corner::new(3, [1, 0, 0])],
            ShapeFault::EdgeTwice {
                face: 513,
                from: 1,
                to: 2,
            },
        ),
    ]);
    Ok(())
}

// Every second corner of a ring.
fn halved(heap: Global, ring: &[Corner]) -> Result<Vec<Corner>, AllocError> {
    ring.iter().step_by(2).copied().collect(heap)
}

// Sixteen plates of 64 corners: 1,024 keys. A face without new keys still goes in.
#[test]
fn keys(rt: HostRuntime) -> Result<(), Fail> {
    let mut trial = Trial::new(&rt, rt.alloc())?;
    let heap = rt.alloc();
    for i in 0..16 {
        let ring = plate(heap, 1 + 64 * i, i, 64)?;
        trial.enter(good(ring.as_slice()));
    }
    let old = halved(heap, plate(heap, 1, 0, 64)?.as_slice())?;
    trial.enter_all(&[
        bad(
            &[
                Corner::new(2, [1, 1, 0]),
                Corner::new(1, [0, 0, 0]),
                Corner::new(2000, [0, 0, 100]),
            ],
            ShapeFault::Full { face: 17 },
        ),
        good(old.as_slice()),
    ]);
    assert_eq!(rt; trial.hull.key_count(), 1024);
    Ok(())
}

// One plate with its reverse, and every second corner of it with that reverse, are 192 directed edges.
// Sixteen times as many are 3,072, none of them open.
#[test]
fn edges(rt: HostRuntime) -> Result<(), Fail> {
    let mut trial = Trial::new(&rt, rt.alloc())?;
    let heap = rt.alloc();
    for i in 0..16 {
        let mut all = plate(heap, 1 + 64 * i, i, 64)?;
        let mut half = halved(heap, all.as_slice())?;
        trial.enter_all(&[good(all.as_slice()), good(half.as_slice())]);
        all.reverse();
        half.reverse();
        trial.enter_all(&[good(all.as_slice()), good(half.as_slice())]);
    }
    assert_eq!(rt;
        [trial.hull.edge_count(), trial.hull.open_edge_count()],
        [3072, 0]
    );
    trial.enter(bad(
        &[
            Corner::new(1, [0, 0, 0]),
            Corner::new(4, [3, 9, 0]),
            Corner::new(7, [6, 36, 0]),
        ],
        ShapeFault::Full { face: 65 },
    ));
    Ok(())
}
