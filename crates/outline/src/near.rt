// A corner in range, and how two others lie as seen from it. What is in range has differences and products that fit.
ghost use Rattle.std.specs.Prelude.{◌<◌, ◌/◌, false, ◌≡◌, ◌*ℤ◌, ◌-ℤ◌, length, get_or};
ghost use Rattle.outline.specs.Corners.{far_corner, same_corner, some_far, no_corner};
ghost use Rattle.outline.specs.Position.{across, between_z, above};
ghost use Rattle.outline.specs.Lent.{corners_in};

use crate::corners::{Corner, corner_at};
use crate::side::minus;
use std::marker::Model;

// Both coordinates are within ±1,000,000,000. A contract sees the corner itself.
#[derive(Clone, Copy)]
pub struct NearCorner {
    at: Corner,
}

impl Model for NearCorner {
    ghost use Rattle.std.specs.Prelude.{◌≡◌, false};
    ghost use Rattle.outline.specs.declared.corners.Corner.{Corner};
    ghost use Rattle.outline.specs.Corners.{far_corner};

    ghost Value = { Corner };

    ghost view = { λ n. n.at };

    ghost inverse = { λ c. record { at = c } };

    ghost invariant = { λ n. far_corner n.at ≡ false };
}

impl NearCorner {
    pub fn new(at: Corner) -> NearCorner
        requires { far_corner at ≡ false }
        ensures { result ≡ at }
    {
        NearCorner { at }
    }

    pub fn corner(self) -> Corner
        ensures { result ≡ self }
    {
        self.at
    }

    #[tactic(auto, using(crate::proofs::LawsSigned::equal_corners))]
    pub fn is(self, other: NearCorner) -> bool
        ensures { result ≡ same_corner self other }
    {
        self.at == other.at
    }

    // How far it lies from p, along x and along y.
    // Stay two: each names its coordinate.
    pub fn x_from(self, p: NearCorner) -> i32
        ensures { result ≡ self.x -ℤ p.x }
    {
        minus(self.at.x, p.at.x)
    }

    pub fn y_from(self, p: NearCorner) -> i32
        ensures { result ≡ self.y -ℤ p.y }
    {
        minus(self.at.y, p.at.y)
    }

    pub fn across(self, a: NearCorner, b: NearCorner) -> i64
        ensures { result ≡ across self a b }
    {
        times(a.x_from(self), b.y_from(self))
    }

    // Between two others along x, and along y.
    // Stay two: each names its coordinate.
    pub fn abreast(self, a: NearCorner, b: NearCorner) -> bool
        ensures { result ≡ between_z a.x self.x b.x }
    {
        between(a.at.x, self.at.x, b.at.x)
    }

    pub fn level(self, a: NearCorner, b: NearCorner) -> bool
        ensures { result ≡ between_z a.y self.y b.y }
    {
        between(a.at.y, self.at.y, b.at.y)
    }

    pub fn is_below(self, a: NearCorner) -> bool
        ensures { result ≡ above self a }
    {
        self.at.y < a.at.y
    }
}

// Parts of 32 bits, so the product always fits.
fn times(a: i32, b: i32) -> i64
    ensures { result ≡ a *ℤ b }
{
    (a as i64) * (b as i64)
}

// Whether p is between a and b, both included.
pub fn between(a: i32, p: i32, b: i32) -> bool
    ensures { result ≡ between_z a p b }
{
    !((p < a) & (p < b)) & !((a < p) & (b < p))
}

// The corner with a number, of a slice whose corners are all in range.
pub fn near_at(xy: &[i32], i: usize) -> NearCorner
    requires { (i < length xy.now / 2) × (some_far (corners_in xy.now) ≡ false) }
    ensures { result ≡ get_or (corners_in xy.now) i no_corner }
{
    NearCorner::new(corner_at(xy, i))
}
