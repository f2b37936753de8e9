// What faults and answers print.
use fault::record::RecordFault;
use fault::shape::ShapeFault;
use fault::text::TextFault;
use samples::answers::Answers;
use std::test::Fail;

// A fault of each kind of place: its number, and where it is.
#[test]
fn faults(rt: HostRuntime) -> Result<(), Fail> {
    let heap = rt.alloc();
    let text = TextFault::NoToken { place: 120 };
    let record = RecordFault::from((40, text));
    let kind = RecordFault::Kind {
        record: 40,
        attribute: 2,
    };
    let source = ShapeFault::from((3, kind));
    let corner = ShapeFault::Corner { face: 5, key: 7 };
    let open = ShapeFault::OpenEdge { from: 1, to: 2 };
    let none = ShapeFault::NoVolume;
    let shown = format!(in heap; "{text}; {record}; {source}; {corner}; {open}; {none}")?;
    assert_eq!(rt;
        shown.as_str(),
        "fault 2 at place 120; fault 2 at place 120, in record 40; fault 11 at record 40, attribute 2, for face 3; fault 14 at face 5, key 7; fault 19 at edge 1 to 2; fault 22"
    );
    Ok(())
}

// The answers in two lines.
#[test]
fn answers(rt: HostRuntime) -> Result<(), Fail> {
    let all = Answers {
        faces: 1,
        keys: 3,
        edges: 3,
        open_edges: 3,
        volume: -6,
        edge_sum: [1, -2, 3],
    };
    let shown = format!(in rt.alloc(); "{all}")?;
    assert_eq!(rt;
        shown.as_str(),
        "faces 1, keys 3, directed edges 3, open edges 3\n  kept volume -6, edge sum (1, -2, 3)"
    );
    Ok(())
}
