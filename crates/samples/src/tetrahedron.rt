// The tetrahedron of 6 mm.
ghost use Rattle.samples.specs.Tetrahedron.{tetrahedron_corners};
ghost use Rattle.std.specs.Prelude.{◌≡◌};

use solid::Corner;

// Its corners, with the keys 1 to 4.
pub fn tetrahedron() -> [Corner; 4]
    ensures { result ≡ tetrahedron_corners }
{
    [
        Corner::new(1, [0, 0, 0]),
        Corner::new(2, [600, 0, 0]),
        Corner::new(3, [0, 600, 0]),
        Corner::new(4, [0, 0, 600]),
    ]
}
