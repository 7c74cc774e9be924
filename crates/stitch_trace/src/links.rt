ghost use Rattle.std.specs.Prelude.{◌≡◌};
ghost use Rattle.stitch_trace.specs.Links.{link_size, reversed_link};

use design_model::Point;

/// A link: what is sewn from one needle point to the next, in tenths of a millimetre.
#[derive(Clone, Copy, PartialEq, Eq, Hash)]
pub struct Link {
    pub from: Point,
    pub to: Point,
}

impl Link {
    /// Returns the link in the opposite direction.
    pub(crate) fn turned(self) -> Link
        ensures { result ≡ reversed_link self }
    {
        Link {
            from: self.to,
            to: self.from,
        }
    }

    /// Returns the size of the link on its longer axis.
    pub(crate) fn size(self) -> u32
        ensures { result ≡ link_size self }
    {
        self.to
            .x
            .abs_diff(self.from.x)
            .max(self.to.y.abs_diff(self.from.y))
    }
}
