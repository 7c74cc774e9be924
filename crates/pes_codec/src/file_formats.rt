ghost use Rattle.pes_codec.specs.declared.file_kind.FileKind.TheVariants as kind;
ghost use Rattle.pes_codec.specs.declared.file_kind.FileKind.{FileKind as Kind};
ghost use Rattle.std.specs.Prelude.{◌≡◌};

use crate::block_format::BlockFormat;
use crate::file_kind::FileKind;

/// A format whose files are of one kind.
pub trait FileFormat {
    /// The kind of the files.
    ghost kind: { Kind };

    /// Returns the kind of the files.
    fn kind() -> FileKind
        ensures { result ≡ kind };
}

/// PEC files.
pub struct PecFiles;

impl FileFormat for PecFiles {
    ghost kind = { kind.Pec };

    fn kind() -> FileKind {
        FileKind::Pec
    }
}

/// PES files.
pub struct PesFiles;

impl FileFormat for PesFiles {
    ghost kind = { kind.Pes };

    fn kind() -> FileKind {
        FileKind::Pes
    }
}

/// The PEC format.
pub type Pec = BlockFormat<PecFiles>;

/// The PES format: any version is read, and version 1 without sewing segments is written.
pub type Pes = BlockFormat<PesFiles>;
