// What the tests share: a hull under test, and rings with what entering each must answer.
use fault::shape::ShapeFault;
use hull::hull::Hull;
use samples::answers::Answers;
use solid::Corner;
use std::alloc::Global;
use std::process::Abort;
use std::test::Fail;

// A ring, and what entering it must answer.
#[derive(Clone, Copy)]
pub(crate) struct Case<'a> {
    pub ring: &'a [Corner],
    pub answer: Result<(), ShapeFault>,
}

pub(crate) fn good(ring: &[Corner]) -> Case<'_> {
    Case {
        ring,
        answer: Ok(()),
    }
}

pub(crate) fn bad(ring: &[Corner], fault: ShapeFault) -> Case<'_> {
    Case {
        ring,
        answer: Err(fault),
    }
}

// A hull under test, which a fault must leave as it was.
#[derive(Drop)]
pub(crate) struct Trial<'a, R> {
    pub rt: &'a R,
    pub hull: Hull,
}

impl<'a, R> Trial<'a, R> {
    pub(crate) fn new(rt: &'a R, heap: Global) -> Result<Trial<'a, R>, Fail> {
        let hull = Hull::new(heap)?;
        Ok(Trial { rt, hull })
    }
}

impl<'a, R: Abort> Trial<'a, R> {
    pub(crate) fn enter(&mut self, case: Case<'_>) {
        let before = Answers::from(&self.hull);
        assert_eq!(self.rt; self.hull.enter(case.ring), case.answer);
        if case.answer.is_err() {
            assert_eq!(self.rt; Answers::from(&self.hull), before);
        }
    }

    pub(crate) fn enter_all(&mut self, cases: &[Case<'_>]) {
        for case in cases {
            self.enter(*case);
        }
    }
}
