// Certifying: the numbers of sound hulls, and faults 19 to 22.
use crate::tools::{Trial, good};
use fault::shape::ShapeFault;
use samples::tetrahedron::tetrahedron;
use solid::Corner;
use std::process::Abort;
use std::test::Fail;

// The faces of a cube of 1 mm from this corner on, with these keys: four corners at the bottom and four above them.
fn cube(keys: [u32; 8], from: [i16; 3]) -> [[Corner; 4]; 6] {
    let x = i32::from(from[0]);
    let y = i32::from(from[1]);
    let z = i32::from(from[2]);
    let [a, b, c, d, e, f, g, h] = keys;
    let a = Corner::new(a, [x, y, z]);
    let b = Corner::new(b, [x + 100, y, z]);
    let c = Corner::new(c, [x + 100, y + 100, z]);
    let d = Corner::new(d, [x, y + 100, z]);
    let e = Corner::new(e, [x, y, z + 100]);
    let f = Corner::new(f, [x + 100, y, z + 100]);
    let g = Corner::new(g, [x + 100, y + 100, z + 100]);
    let h = Corner::new(h, [x, y + 100, z + 100]);
    [
        [a, d, c, b],
        [e, f, g, h],
        [a, b, f, e],
        [b, c, g, f],
        [c, d, h, g],
        [d, a, e, h],
    ]
}

// Enters faces of four corners.
fn enter_faces<R: Abort>(trial: &mut Trial<'_, R>, rings: &[[Corner; 4]]) {
    for ring in rings {
        trial.enter(good(ring));
    }
}

// A hull of these faces must be certified with these numbers: keys, edges, faces and kept volume.
fn certified<R: Abort>(trial: &Trial<'_, R>, numbers: [usize; 3], volume: i64) {
    match trial.hull.certify() {
        Ok(sound) => {
            assert_eq!(trial.rt; [sound.keys(), sound.edges(), sound.faces()], numbers);
            assert_eq!(trial.rt; sound.volume(), volume);
        }
        Err(fault) => panic!(trial.rt; "not certified: {fault}"),
    }
}

// The tetrahedron of 6 mm, and a cube of 1 mm.
#[test]
fn sound(rt: HostRuntime) -> Result<(), Fail> {
    let mut trial = Trial::new(&rt, rt.alloc())?;
    let [a, b, c, d] = tetrahedron();
    trial.enter_all(&[
        good(&[a, c, b]),
        good(&[a, b, d]),
        good(&[a, d, c]),
        good(&[b, c, d]),
    ]);
    certified(&trial, [4, 6, 4], 216000000);
    trial.hull.clear();
    enter_faces(&mut trial, &cube([1, 2, 3, 4, 5, 6, 7, 8], [-50, 0, 7]));
    certified(&trial, [8, 12, 6], 6000000);
    Ok(())
}

// The last face left out, two cubes that share a corner, two apart, a triangle with its reverse, and nothing.
#[test]
fn refused(rt: HostRuntime) -> Result<(), Fail> {
    let mut trial = Trial::new(&rt, rt.alloc())?;
    let first = cube([1, 2, 3, 4, 5, 6, 7, 8], [0, 0, 0]);
    enter_faces(&mut trial, &first[..5]);
    assert!(rt; matches!(trial.hull.certify(), Err(ShapeFault::OpenEdge { .. })));
    trial.enter(good(&first[5]));
    enter_faces(
        &mut trial,
        &cube([7, 9, 10, 11, 12, 13, 14, 15], [100, 100, 100]),
    );
    assert_eq!(rt; trial.hull.certify(), Err(ShapeFault::KeyCycle { key: 7 }));
    trial.hull.clear();
    enter_faces(&mut trial, &first);
    enter_faces(
        &mut trial,
        &cube([9, 10, 11, 12, 13, 14, 15, 16], [300, 0, 0]),
    );
    assert_eq!(rt; trial.hull.certify(), Err(ShapeFault::Disconnected));
    trial.hull.clear();
    let [a, b, c, _] = tetrahedron();
    trial.enter_all(&[good(&[a, b, c]), good(&[c, b, a])]);
    assert_eq!(rt; trial.hull.certify(), Err(ShapeFault::NoVolume));
    trial.hull.clear();
    assert_eq!(rt; trial.hull.certify(), Err(ShapeFault::NoVolume));
    Ok(())
}

// Of several open edges the first in order of entry is named, whatever its keys and however many closed edges there are.
#[test]
fn first_open_edge(rt: HostRuntime) -> Result<(), Fail> {
    let mut trial = Trial::new(&rt, rt.alloc())?;
    let [a, b, c, _] = tetrahedron();
    trial.enter(good(&[b, c, a]));
    assert_eq!(rt;
        trial.hull.certify(),
        Err(ShapeFault::OpenEdge { from: 2, to: 3 })
    );
    trial.enter(good(&[a, c, b]));
    let far = [
        Corner::new(9, [0, 0, 1000]),
        Corner::new(8, [600, 0, 1000]),
        Corner::new(7, [0, 600, 1000]),
    ];
    trial.enter(good(&far));
    assert_eq!(rt;
        trial.hull.certify(),
        Err(ShapeFault::OpenEdge { from: 9, to: 8 })
    );
    Ok(())
}
