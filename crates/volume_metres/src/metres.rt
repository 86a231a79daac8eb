// Whether numbers are coordinates: whole metres, from -1,000 to 1,000.
ghost use Rattle.std.specs.Prelude.{◌≡◌};
ghost use Rattle.volume_metres.specs.Whole.{coordinate, all_coordinates};

// How far from 0 a coordinate may lie.
const FARTHEST: f64 = 1000.0;

// Whether x is a coordinate. NaN fails the first test, and -0.0 passes all three.
pub fn is_coordinate(x: f64) -> bool
    ensures { result ≡ coordinate x }
{
    if x >= -FARTHEST && x <= FARTHEST {
        let whole = std::num::truncating_f64_to_i64(x);
        return std::num::nearest_i64_to_f64(whole) == x;
    }
    false
}

// Whether all numbers are coordinates.
pub fn all_coordinates(xs: &[f64]) -> bool
    ensures { result ≡ all_coordinates xs.now }
{
    xs.iter().all(|&x| is_coordinate(x))
}
