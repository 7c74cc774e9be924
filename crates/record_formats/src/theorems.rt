ghost use Rattle.record_formats.specs.RoundTrip.{EncodedActsRoundTrip};

/// Theorem: where a reader decodes each encoded record as the writer meant it, the encoded acts of a design
/// that is not refused read back.
pub fn encoded_acts_round_trip()
    ensures { EncodedActsRoundTrip }
{}
