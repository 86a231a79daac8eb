// Points in metres, and the determinant of three of them.
ghost use Rattle.std.specs.Prelude.{◌≡◌, ◌+◌, ◌*◌, ◌<◌, length};
ghost use Rattle.volume_metres.specs.Points.{point_of};
ghost use Rattle.volume_metres.specs.Formulas.{det_in};

use listing::Index;

// Where a vertex stands.
#[derive(Clone, Copy)]
pub struct Point {
    pub x: f64,
    pub y: f64,
    pub z: f64,
}

// Where vertex v stands, by coordinates that have three numbers for each vertex.
pub fn point_of(coordinates: &[f64], v: Index) -> Point
    requires { 3 * v + 2 < length coordinates.now }
    ensures { result ≡ point_of coordinates.now v }
{
    let i = 3 * usize::from(v);
    Point {
        x: coordinates[i],
        y: coordinates[i + 1],
        z: coordinates[i + 2],
    }
}

// The determinant of three points, worked out in floats.
pub fn det(a: Point, b: Point, c: Point) -> f64
    ensures { result ≡ det_in a b c }
{
    a.x * (b.y * c.z - b.z * c.y) - a.y * (b.x * c.z - b.z * c.x) + a.z * (b.x * c.y - b.y * c.x)
}
