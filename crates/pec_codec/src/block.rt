use format_traits::WriteLimits;

/// The greatest move of a written record on each axis, in tenths of a millimetre.
pub const LIMIT: u32 = 2047;

/// The most stops of a block.
pub const MAX_STOPS: u32 = 254;

/// The limits of what a block can contain.
pub const WRITE_LIMITS: WriteLimits = WriteLimits {
    limit: LIMIT,
    float_hops: None,
    stops: Some(MAX_STOPS),
};

/// The number of bytes of a block before its records.
pub const HEADER_LENGTH: usize = 528;

/// The number of bytes of the first part of a header, which contains the label and the threads. The distance
/// to the thumbnails is counted from the end of this part.
pub const LABELS_LENGTH: usize = 512;

/// The number of bytes of a thumbnail.
pub const THUMBNAIL_LENGTH: usize = 228;
