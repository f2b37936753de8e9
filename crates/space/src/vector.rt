// Vectors as three-element arrays by value, as a rule of the project asks: differences, sums and products, in widths that cannot overflow within the
// stated bounds. An array carries no bound of its own, so the calls ask for it.
ghost use Rattle.algebra.specs.Vector.{vector, ◌+ᵛ◌, ◌-ᵛ◌, cross as cross_of, dot as dot_of, Near, Inside, Small, Large};
ghost use Rattle.std.specs.Prelude.{◌≡◌, ◌^◌, ◌<◌, unsigned_abs, Decides};

// A position with 64 bits to a coordinate.
pub fn wide(p: [i32; 3]) -> [i64; 3]
    requires { Inside (vector p) }
    ensures is { vector result ≡ vector p }
    ensures small { Small (vector result) }
{
    p.map(i64::from)
}

// Whether a coordinate lies within ±50,000.
fn is_near(x: i32) -> bool
    ensures { Decides result (Near 50000 x) }
{
    (-50_000..=50_000).contains(&x)
}

// Whether a position is in range.
pub fn is_inside(p: [i32; 3]) -> bool
    ensures { Decides result (Inside (vector p)) }
{
    p.iter().all(|&x| is_near(x))
}

// The vector from q to p.
pub fn difference(p: [i32; 3], q: [i32; 3]) -> [i64; 3]
    requires { (Inside (vector p)) × (Inside (vector q)) }
    ensures is { vector result ≡ vector p -ᵛ vector q }
    ensures small { Small (vector result) }
{
    let p = wide(p);
    let q = wide(q);
    [p[0] - q[0], p[1] - q[1], p[2] - q[2]]
}

// The sum of two vectors.
pub fn plus(a: [i64; 3], b: [i64; 3]) -> [i64; 3]
    requires { (Large (vector a)) × (Large (vector b)) }
    ensures { vector result ≡ vector a +ᵛ vector b }
{
    [a[0] + b[0], a[1] + b[1], a[2] + b[2]]
}

// The vector product of two vectors whose components lie within ±100,000.
pub fn cross(a: [i64; 3], b: [i64; 3]) -> [i64; 3]
    requires { (Small (vector a)) × (Small (vector b)) }
    ensures { vector result ≡ cross_of (vector a) (vector b) }
{
    [
        a[1] * b[2] - a[2] * b[1],
        a[2] * b[0] - a[0] * b[2],
        a[0] * b[1] - a[1] * b[0],
    ]
}

// The scalar product of two vectors whose components lie within ±2 · 10^13: the sum can reach 1.2 · 10^27, and so it has 128 bits. Where the first is
// within ±100,000, it fits an i64.
pub fn dot(a: [i64; 3], b: [i64; 3]) -> i128
    requires { (Large (vector a)) × (Large (vector b)) }
    ensures is { result ≡ dot_of (vector a) (vector b) }
    ensures fits { Small (vector a) → unsigned_abs result < 2 ^ 63 }
{
    let a = a.map(i128::from);
    let b = b.map(i128::from);
    a[0] * b[0] + a[1] * b[1] + a[2] * b[2]
}
