// The numbers of a certificate.
ghost use Rattle.hull.specs.Certificates.{certificate_of};
ghost use Rattle.std.specs.Prelude.{◌≡◌, pos, ◌≤ℤ◌};

use crate::hull::certificate::Certificate;

impl Certificate {
    // V: how many keys there are.
    pub fn keys(&self) -> usize
        ensures { result ≡ (certificate_of self.now).v }
    {
        self.keys
    }

    // E: how many edges there are, half the directed ones.
    pub fn edges(&self) -> usize
        ensures { result ≡ (certificate_of self.now).e }
    {
        self.edges
    }

    // F: how many faces there are.
    pub fn faces(&self) -> usize
        ensures { result ≡ (certificate_of self.now).f }
    {
        self.faces
    }

    // N: the kept volume, six times the enclosed volume.
    pub fn volume(&self) -> i64
        ensures value { result ≡ (certificate_of self.now).n }
        ensures positive { pos 1 ≤ℤ result }
    {
        self.volume
    }
}
