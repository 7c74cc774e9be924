/// Routes `a.rw` as DST, with its certificate.
pub const TO_DST: &str = "route a.rw b.dst b.cert";

/// Checks that DST file by the certificate.
pub const OF_DST: &str = "check a.rw b.dst b.cert";
