ghost use Rattle.line_graph.specs.GrowingDrawings.{ChangesAsSpecified};
ghost use Rattle.line_graph.specs.JoinedDrawings.{is_joined};
ghost use Rattle.line_graph.specs.WalkEnds.{HasNoEnds, end_added, start_added};
ghost use Rattle.std.specs.Prelude.{◌≡◌, true, IfOk};

use crate::chosen_spots::ChosenSpots;
use crate::draw_kind::DrawKind;
use crate::drawing::Drawing;
use crate::first_lines::links;
use crate::line_labels::labels;
use design_model::Memory;
use line_sections::Spot;
use std::alloc::Global;
use std::marker::Model;

/// Adds starts and ends to a joined drawing, one by one.
#[derive(Drop)]
pub struct EndsMaker {
    drawing: Drawing,
    labels: Vec<u32>,
    starts: ChosenSpots,
    ends: ChosenSpots,
}

impl Model for EndsMaker {
    ghost use Rattle.line_graph.specs.EndsMakerInvariants.{IsEndsMakerState};
    ghost use Rattle.line_graph.specs.Drawings.{DrawingValue};

    ghost Value = { DrawingValue };

    ghost view = { λ m. record m.drawing {
      starts = m.starts.spots.items;
      ends = m.ends.spots.items;
    } };

    ghost invariant = { λ m. IsEndsMakerState m.drawing m.labels.items m.starts m.ends };
}

impl EndsMaker {
    /// Returns a maker for a joined drawing that has no start and no end yet.
    pub fn new(alloc: Global, drawing: Drawing) -> Result<EndsMaker, Memory>
        requires joined { is_joined drawing ≡ true }
        requires no_ends { HasNoEnds drawing }
        ensures { IfOk result (λ maker. maker ≡ drawing) }
    {
        let links = links(alloc, &drawing)?;
        let labels = labels(alloc, links.as_slice(), drawing.line_count())?;
        let starts = ChosenSpots::new(alloc, &drawing)?;
        let ends = ChosenSpots::new(alloc, &drawing)?;
        Ok(EndsMaker {
            drawing,
            labels,
            starts,
            ends,
        })
    }

    /// Adds a start. Errors, in this order: `NoJunction` where no line of the block has an end at the spot,
    /// `EndRepeated` where its piece has a start, `Memory`. An error leaves the drawing unchanged.
    pub fn add_start(&mut self, spot: Spot) -> Result<(), DrawKind>
        ensures { ChangesAsSpecified (start_added self.old spot) self.old result self.new }
    {
        self.starts.add(&self.drawing, self.labels.as_slice(), spot)
    }

    /// Adds an end. Errors, in this order: `NoJunction` where no line of the block has an end at the spot,
    /// `EndRepeated` where its piece has an end, `Memory`. An error leaves the drawing unchanged.
    pub fn add_end(&mut self, spot: Spot) -> Result<(), DrawKind>
        ensures { ChangesAsSpecified (end_added self.old spot) self.old result self.new }
    {
        self.ends.add(&self.drawing, self.labels.as_slice(), spot)
    }

    /// Returns the drawing with its starts and ends.
    pub fn finish(self) -> Drawing
        ensures { result ≡ self }
    {
        let EndsMaker {
            drawing,
            starts,
            ends,
            ..
        } = self;
        drawing.with_ends(starts.spots, ends.spots)
    }
}
