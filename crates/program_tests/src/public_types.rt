//! The public types, each from the crate where callers look for it. This file builds only while they are all there.

pub use blossom_match::{DistTable, Matching, Moat, Moats, Pair, Pairs};
pub use certificate_text::CertFault;
pub use cut_certificate::{Cert, Cut, CutFault, Cuts, PieceCert, PieceCerts, WalkFault};
pub use design_edits::{Axis, EditFault};
pub use design_model::{
    Act, Acts, Bytes, Command, Commands, Counts, Design, Extent, Memory, ModelFault, NumberedAct,
    Numbers, Point, Points, Whole,
};
pub use drawing_text::DrawFault;
pub use dst_codec::Dst;
pub use exp_codec::Exp;
pub use format_traits::{Format, Loaded, ReadFault, WriteFault};
pub use hoop_check::Fit;
pub use line_graph::{DrawKind, Drawing, DrawingMaker, Edge, Edges, Pass, Piece, Pieces, Walk};
pub use odd_paths::Rows;
pub use outside_io::{
    DirStore, Failed, GetFault, MemSink, MemStore, ReadStop, Sink, StdSink, Store,
};
pub use pec_codec::BlockReader;
pub use pes_codec::{Pec, Pes};
pub use route_core::{Reason, Routed, Verdict};
pub use step_splitter::{RefitFault, RefitMode};
pub use stitch_cli::{Request, Status};
pub use stitch_text::List;
pub use stitch_trace::TraceFault;
