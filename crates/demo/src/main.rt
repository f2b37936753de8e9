// Follows one task through the library from beginning to end, and prints what it did.
#![tactic(auto)]

use hull::hull::Hull;
use samples::answers::{Answers, Counts, Volume};
use samples::plate::plate;
use samples::tetrahedron::tetrahedron;
use solid::Corner;
use std::io;

// The hull, and where what is done with it is printed.
#[derive(Drop)]
struct Demo<'a> {
    rt: &'a HostRuntime,
    hull: Hull,
}

impl<'a> Demo<'a> {
    // Shows what the hull answers. Each line is a write of its own, so where one fails the lines before it are there.
    fn show(&self) -> io::Result<()> {
        let all = Answers::from(&self.hull);
        println!(self.rt; "  {}", Counts(all))?;
        println!(self.rt; "  {}", Volume(all))
    }

    // Enters a ring, and shows what came of it.
    fn enter(&mut self, what: &str, ring: &[Corner]) -> io::Result<()> {
        println!(self.rt; "Enter {what}:")?;
        let before = Answers::from(&self.hull);
        match self.hull.enter(ring) {
            Ok(()) => self.show(),
            Err(fault) => {
                println!(self.rt; "  refused: {fault}")?;
                if Answers::from(&self.hull) == before {
                    println!(self.rt; "  the hull answers as before")
                } else {
                    println!(self.rt; "  the hull has changed")
                }
            }
        }
    }

    // The tetrahedron, face by face.
    fn tetrahedron(&mut self) -> io::Result<()> {
        let [a, b, c, d] = tetrahedron();
        self.enter("the face 1 3 2", &[a, c, b])?;
        self.enter("the face 1 2 4", &[a, b, d])?;
        self.enter("the face 1 4 3", &[a, d, c])?;
        self.enter("the face 2 3 4, which closes the tetrahedron", &[b, c, d])
    }

    // One face for each rule that it breaks.
    fn refusals(&mut self) -> io::Result<()> {
        let [a, b, c, _] = tetrahedron();
        let twin = Corner::new(5, [0, 0, 0]);
        self.enter(
            "a face whose corner 5 lies where corner 1 lies",
            &[b, c, twin],
        )?;
        let up = [
            Corner::new(5, [1000, 0, 0]),
            Corner::new(6, [1600, 0, 0]),
            Corner::new(7, [1600, 600, 0]),
            Corner::new(8, [1000, 600, 1]),
        ];
        self.enter("a face that is not flat", &up)?;
        let crossed = [
            a,
            Corner::new(5, [4, 4, 0]),
            Corner::new(6, [4, 0, 0]),
            Corner::new(7, [0, 2, 0]),
        ];
        self.enter("a face whose edges cross", &crossed)?;
        self.enter("the face 1 3 2 again", &[a, c, b])
    }

    // Plates until the hull has no room for the keys of another.
    fn fill(&mut self) -> anyhow::Result<()> {
        for index in 0..15 {
            let ring = plate(self.rt.alloc(), 100 + 64 * index, 1000 + index, 64)?;
            if let Err(fault) = self.hull.enter(ring.as_slice()) {
                println!(self.rt; "  refused: {fault}")?;
            }
        }
        println!(self.rt; "Fifteen plates of 64 corners each are entered:")?;
        self.show()?;
        let last = plate(self.rt.alloc(), 100 + 64 * 15, 1000 + 15, 64)?;
        self.enter("a sixteenth plate", last.as_slice())?;
        Ok(())
    }

    // The last face of the tetrahedron alone, counted from the origin and from (1, 0, 0).
    fn alone(&mut self) -> io::Result<()> {
        self.hull.clear();
        println!(self.rt; "Clear:")?;
        self.show()?;
        let [_, b, c, d] = tetrahedron();
        self.enter("the face 2 3 4 alone", &[b, c, d])?;
        let [x, _, _] = self.hull.edge_sum();
        let volume = self.hull.kept_volume();
        match volume.checked_sub(x) {
            Some(count) => println!(self.rt;
                "Counted from (1, 0, 0), {volume} less 1 times {x}: {count}"
            ),
            None => println!(self.rt;
                "Counted from (1, 0, 0), {volume} less 1 times {x}: beyond 64 bits"
            ),
        }
    }
}

fn main(rt: HostRuntime) -> anyhow::Result<()> {
    println!(rt; "A hull of flat faces. Positions are in hundredths of a millimetre.")?;
    let hull = Hull::new(rt.alloc())?;
    let mut demo = Demo { rt: &rt, hull };
    demo.tetrahedron()?;
    demo.refusals()?;
    demo.fill()?;
    demo.alone()?;
    Ok(())
}
