//! Whether a closed ring of corners covers a point.
#![tactic(auto)]

ghost use Rattle.std.specs.Prelude.{◌≡◌, ◌^◌, ◌<◌, ◌≤◌, pos, ◌-ℤ◌, ◌*ℤ◌};
ghost use Rattle.std.specs.Int.Signed.{mag};
ghost use Rattle.ring.specs.Ring.{between as lies, covers, crossed as crosses, on_edge, side_of};

use point::Point;

/// The step from `a` to `b`.
fn step(a: u16, b: u16) -> i32
    ensures value { result ≡ pos b -ℤ pos a }
    ensures bound { mag result < 2 ^ 16 }
{
    b as i32 - a as i32
}

/// The product of two steps.
fn times(p: i32, q: i32) -> i64
    requires first { mag p < 2 ^ 16 }
    requires second { mag q < 2 ^ 16 }
    ensures value { result ≡ p *ℤ q }
    ensures bound { mag result ≤ 2 ^ 32 }
{
    i64::from(p) * i64::from(q)
}

/// An edge of a ring, from a corner to the next.
#[derive(Clone, Copy)]
struct Edge {
    from: Point,
    to: Point,
}

/// Whether `n` lies between `a` and `b`, both included.
fn between(a: u16, b: u16, n: u16) -> bool
    ensures { result ≡ lies a b n }
{
    a.min(b) <= n && n <= a.max(b)
}

impl Edge {
    /// D of the edge and the point: on which side of the edge the point lies.
    fn side(&self, at: Point) -> i64
        ensures { result ≡ side_of self.now.from self.now.to at.x at.y }
    {
        let Edge { from, to } = *self;
        times(step(from.x, to.x), step(from.y, at.y))
            - times(step(from.y, to.y), step(from.x, at.x))
    }

    /// Whether the point is on the edge.
    fn contains(&self, at: Point) -> bool
        ensures { result ≡ on_edge self.now.from self.now.to at.x at.y }
    {
        let Edge { from, to } = *self;
        between(from.x, to.x, at.x) && between(from.y, to.y, at.y) && self.side(at) == 0
    }

    /// Whether the edge is crossed.
    fn crossed(&self, at: Point) -> bool
        ensures { result ≡ crosses self.now.from self.now.to at.x at.y }
    {
        let Edge { from: a, to: b } = *self;
        let y = at.y;
        (a.y > y) != (b.y > y)
            && if a.y < b.y {
                self.side(at) > 0
            } else {
                self.side(at) < 0
            }
    }
}

/// Whether the closed ring of these corners covers the point.
pub fn covered(corners: &[Point], at: Point) -> bool
    ensures { result ≡ covers corners.now at.x at.y }
{
    let [.., last] = corners else {
        return false;
    };
    // the loop carries the corner by hand: an iterator of edges under `any` and `count` takes 1.6 times as long
    let mut from = *last;
    let mut count = 0usize;
    for to in corners {
        let edge = Edge { from, to: *to };
        if edge.contains(at) {
            return true;
        }
        if edge.crossed(at) {
            count += 1;
        }
        from = *to;
    }
    count % 2 == 1
}
