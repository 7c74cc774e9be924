/// A request of the arguments. Each file name has from 1 to 4,096 bytes.
#[derive(Clone, Copy)]
pub enum Request<'a> {
    /// Sew a drawing as one running thread.
    Route {
        drawing: &'a str,
        out: &'a str,
        cert: &'a str,
    },
    /// Check whether a certificate proves that a design sews a drawing by walks of the least cost.
    Check {
        drawing: &'a str,
        file: &'a str,
        cert: &'a str,
    },
    /// Write a design in another format, with long stitches split or floats cut.
    Convert {
        input: &'a str,
        output: &'a str,
        split: bool,
        cut: bool,
    },
    /// Print a report on the contents of a file.
    Show {
        file: &'a str,
    },
    /// Write a design after edits, one for each argument.
    Edit {
        input: &'a str,
        output: &'a str,
        edits: &'a [String],
    },
    /// Check whether a design fits a hoop, whose width and height are in tenths of a millimetre.
    Hoop {
        file: &'a str,
        w: u32,
        h: u32,
    },
    /// Write the sample drawing of a number.
    Sample {
        n: u32,
        drawing: &'a str,
    },
    /// Write a drawing in the newest version of its text.
    Migrate {
        input: &'a str,
        output: &'a str,
    },
    /// Write the drawing of what a design sews.
    Trace {
        file: &'a str,
        drawing: &'a str,
    },
    /// Sew each line of a drawing once in each direction.
    Double {
        drawing: &'a str,
        out: &'a str,
        cert: &'a str,
    },
}
