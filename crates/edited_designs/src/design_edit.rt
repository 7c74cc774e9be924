use design_edits::Motion;

/// An edit of a design.
#[derive(Clone, Copy)]
pub enum DesignEdit<'a> {
    /// Shift, turn or mirror all points.
    Move(Motion),
    /// Set the thread of a block, numbered from 1.
    Thread { place: u32, thread: u8 },
    /// Tie each end of a thread that isn't tied, with ties of at least so many tenths of a millimetre.
    Tie(u32),
    /// Take the ties of each thread away.
    Bare,
    /// Shift it so that the middle of its needles comes to the origin.
    Centre,
    /// Cut floats of more than so many tenths of a millimetre.
    Cut(u32),
    /// Carry the thread over where a trim comes before a needle at most so many tenths of a millimetre away.
    Carry(u32),
    /// Leave out needles that are nearer than so many tenths of a millimetre to the one before.
    Merge(u32),
    /// Sew each stitch there and back so many times, and once more there.
    Bean(u32),
    /// Scale all points by so many hundredths.
    Scale(u32),
    /// Leave out the blocks that have no needle.
    DropEmpty,
    /// Draw thumbnails in the file of the design, which stays.
    Thumbnails,
    /// Set the label, of at most 16 bytes.
    Name(&'a [u8]),
}
