//! The public functions, each from the crate where callers look for it. This file builds only while they are all there.

pub use blossom_match::match_all;
pub use certificate_text::{print_cert, read_cert};
pub use cut_certificate::{
    check_cuts, check_walk, lift, packings_bound_walks, packings_prove_least,
};
pub use design_edits::{mirror, recolour, shift, turn};
pub use design_model::{acts, counts, extent, parse_whole};
pub use double_run::double;
pub use drawing_text::{print_drawing, print_drawing2, read_as2, read_drawing};
pub use dst_codec::{decode_move, encode_move};
pub use euler_tour::tour;
pub use format_traits::find;
pub use hoop_check::fits;
pub use line_graph::{join, joined, needles, pieces};
pub use odd_paths::{odd, rows};
pub use outside_io::read_whole;
pub use pec_codec::{read_block, write_block};
pub use route_core::{judge, route, sew};
pub use step_splitter::{refit, split, steps};
pub use stitch_cli::{request, run, sample_drawing};
pub use stitch_trace::trace;
