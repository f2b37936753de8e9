// Certifying a hull: the tests of a whole hull, in order.
ghost use Rattle.hull.specs.Certificates.{verdict_of};
ghost use Rattle.hull.specs.Meaning.{faces_of};
ghost use Rattle.hull.specs.Promise.{Promise};
ghost use Rattle.index.specs.Closed.{ClosedOr};
ghost use Rattle.solid.specs.Certifying.{CertifySays};
ghost use Rattle.solid.specs.Roll.{certify as certifying};

use crate::hull::Hull;
use crate::hull::certificate::Certificate;
use cycles::broken_key;
use fault::shape::ShapeFault;
use index::index::closed::ClosedIndex;
use reach::is_connected;

impl Hull {
    // The certificate of the hull, or the fault of the first test that fails. The hull stays as it is.
    pub fn certify(&self) -> Result<Certificate, ShapeFault>
        ensures { Promise certifying self.now self.now (verdict_of result) }
    {
        self.verdict()
    }

    // The index as one that is closed, or the fault that names an open edge. An open edge is looked for only where one is counted.
    fn closed(&self) -> Result<ClosedIndex<'_>, ShapeFault>
        ensures { ClosedOr self.now.index result }
    {
        if self.open_edges == 0 {
            return Ok(ClosedIndex::new(&self.index));
        }
        self.index.closed()
    }

    // The tests in order.
    fn verdict(&self) -> Result<Certificate, ShapeFault>
        ensures { CertifySays (faces_of self.now) (verdict_of result) }
    {
        let closed = self.closed()?;
        if let Some(key) = broken_key(&closed) {
            return Err(ShapeFault::KeyCycle { key });
        }
        if !is_connected(&closed) {
            return Err(ShapeFault::Disconnected);
        }
        let volume = self.kept_volume();
        if volume < 1 {
            return Err(ShapeFault::NoVolume);
        }
        Ok(Certificate {
            keys: self.key_count(),
            edges: self.edge_count() / 2,
            faces: self.face_count(),
            volume,
        })
    }
}
