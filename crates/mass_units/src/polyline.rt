//! Lines that follow one another from point to point, as the edges on one side of an envelope and the
//! lines between the rows of a fuel table do.

ghost use Rattle.std.specs.Prelude.{◌≡◌, ◌^◌, ◌<◌, IfSome, IfNone, length, nat_le, position};
ghost use Rattle.mass_units.specs.Polyline.{lines, first_fall, IsRising};

use crate::{Line, Point};
use std::marker::Model;

/// What stands at a point: a corner of an envelope, or a row of a fuel table.
pub trait ToPoint {
    ghost use Rattle.mass_units.specs.declared.line.Point.{Point};

    ghost point: { Self → Point };

    /// The mass and the index at which it stands.
    fn to_point(&self) -> Point
        ensures { result ≡ point self.now };
}

/// The lines between neighbouring points, from the first point on.
#[derive(Drop)]
pub struct Lines<'a, P: ToPoint> {
    points: &'a [P],
}

impl<'a, P: ToPoint> Model for Lines<'a, P> {
    ghost use Rattle.std.specs.Prelude.{List};
    ghost use Rattle.mass_units.specs.declared.line.Line.{Line};
    ghost use Rattle.mass_units.specs.Polyline.{lines};

    ghost Value = { List Line };

    ghost view = { λ l. lines P.point l.points.now };
}

impl<'a, P: ToPoint> Lines<'a, P> {
    pub fn between(points: &'a [P]) -> Lines<'a, P>
        ensures { result ≡ lines P.point points.now }
    {
        Lines { points }
    }
}

impl<P: ToPoint> Iterator for Lines<'_, P> {
    ghost use Rattle.std.specs.Iterator.{YieldsFirst, item_count};

    type Item = Line;

    ghost next_gives = { YieldsFirst (λ left. left) };

    ghost remaining = { item_count (λ left. left) };

    fn next(&mut self) -> Option<Line> {
        let points = self.points;
        let [start, rest @ ..] = points else {
            return None;
        };
        let end = rest.first()?;
        self.points = rest;
        Some(Line::between(start.to_point(), end.to_point()))
    }
}

/// The place of the first point whose mass is not greater than that of the one before it. None where the
/// masses rise.
pub fn first_fall<P: ToPoint>(points: &[P]) -> Option<usize>
    requires { length points.now < 2 ^ 63 }
    ensures place { result ≡ first_fall P.point points.now }
    ensures rising { IfNone result (IsRising P.point points.now) }
{
    let before = first_falling_line(points)?;
    Some(before + 1)
}

fn first_falling_line<P: ToPoint>(points: &[P]) -> Option<usize>
    requires { length points.now < 2 ^ 63 }
    ensures place { result ≡ position (λ line. nat_le line.to.0 line.from.0) (lines P.point points.now) }
    ensures bound { IfSome result (λ at. at < 2 ^ 63) }
    ensures rising { IfNone result (IsRising P.point points.now) }
{
    Lines::between(points).position(|line| line.to.0 <= line.from.0)
}
