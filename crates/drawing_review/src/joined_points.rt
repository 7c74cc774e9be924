ghost use Rattle.drawing_review.specs.Meetings.{is_same_grid_point};
ghost use Rattle.drawing_review.specs.declared.grid_point.GridPoint.{GridPoint as PointValue};
ghost use Rattle.drawing_review.specs.JoinedPoints.{is_among, place_of};
ghost use Rattle.std.specs.Prelude.{◌≡◌, IfOk, OnOk, cond, length, true};

use crate::grid_point::GridPoint;
use design_model::Memory;
use std::alloc::Global;
use std::collections::HashSet;
use std::marker::Model;

/// A point, as a set finds it.
#[derive(Clone, Copy, PartialEq, Eq, Hash)]
pub struct Place {
    pub x: u16,
    pub y: u16,
}

/// The points that segments near by join to a point, in no order.
#[derive(Drop)]
pub struct JoinedPoints {
    places: HashSet<Place>,
}

impl Model for JoinedPoints {
    ghost use Rattle.drawing_review.specs.declared.joined_points.Place.{Place};
    ghost use Rattle.std.specs.Prelude.{List};

    ghost Value = { List Place };

    ghost view = { λ joined. joined.places.keys };
}

impl JoinedPoints {
    /// Returns a point alone.
    pub(crate) fn of(alloc: Global, p: GridPoint) -> Result<JoinedPoints, Memory>
        ensures { IfOk result (λ joined. (q : PointValue) → is_among joined q ≡ is_same_grid_point p q) }
    {
        let mut places = HashSet::new(alloc);
        places.insert(place_at(p))?;
        Ok(JoinedPoints { places })
    }

    /// Returns how many points there are.
    pub fn len(&self) -> usize
        ensures { result ≡ length self.now }
    {
        self.places.len()
    }

    /// Returns whether a point is among them.
    pub fn has(&self, p: GridPoint) -> bool
        ensures { result ≡ is_among self.now p }
    {
        self.places.contains(&place_at(p))
    }

    /// Puts a point to them, unless it is there.
    pub(crate) fn put(&mut self, p: GridPoint) -> Result<(), Memory>
        ensures { OnOk result ((q : PointValue) → is_among self.new q
            ≡ cond (is_same_grid_point p q) true (is_among self.old q)) }
    {
        self.places.insert(place_at(p))?;
        Ok(())
    }
}

fn place_at(p: GridPoint) -> Place
    ensures { result ≡ place_of p }
{
    Place { x: p.x, y: p.y }
}
