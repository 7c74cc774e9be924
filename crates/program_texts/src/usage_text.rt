ghost use Rattle.program_texts.specs.UsageText.{usage_text};
ghost use Rattle.std.specs.Prelude.{◌≡◌};

/// The usage text, which is reported on standard error if the arguments request nothing that the program
/// does.
pub const USAGE: &[u8] = b"usage: stitch route DRAWING OUT CERT
       stitch check DRAWING FILE CERT
       stitch convert IN OUT [--split] [--cut]
       stitch show FILE
       stitch edit IN OUT EDIT...
       stitch hoop FILE WIDTH HEIGHT
       stitch sample N DRAWING
       stitch migrate DRAWING OUT
       stitch trace FILE DRAWING
       stitch double DRAWING OUT CERT
";

/// Returns the usage text.
pub fn usage() -> &'static [u8]
    ensures { result.now ≡ usage_text }
{
    USAGE
}
