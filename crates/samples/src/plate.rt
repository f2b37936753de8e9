// A plate: a flat face of many corners, which lie on a parabola.
ghost use Rattle.samples.specs.Plate.{plate_corners};
ghost use Rattle.std.specs.Prelude.{◌≡◌, IfOk};

use solid::Corner;
use std::alloc::{AllocError, Global};

// The plate of so many corners at the height z, with keys from `first` on.
pub fn plate(heap: Global, first: u16, z: u16, count: u8) -> Result<Vec<Corner>, AllocError>
    ensures { IfOk result (λ ring. ring.items ≡ plate_corners first z count) }
{
    (0..count)
        .map(|i| {
            let x = i32::from(i);
            Corner::new(u32::from(first) + u32::from(i), [x, x * x, i32::from(z)])
        })
        .collect(heap)
}
