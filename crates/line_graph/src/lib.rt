//! Drawings of lines in colour blocks of one thread each: their limits, how they are made and joined, the needle points
//! of their lines, their pieces as graphs, walks over them as stitches, and the starts and ends of walks.
//!
//! ```
//! use design_model::{Items, Point};
//! use line_graph::{DrawingMaker, drawing_cost, pieces};
//!
//! let mut maker = DrawingMaker::new(alloc, b"A", 25);
//! maker.add_block(5).ok().ok_or("no block")?;
//! let mut line = Items::new(alloc);
//! line.append(&[Point { x: 0, y: 0 }, Point { x: 50, y: 0 }])?;
//! maker.add_line(line).ok().ok_or("no line")?;
//! let drawing = maker.finish().ok().ok_or("no drawing")?;
//! assert_eq!(rt; drawing_cost(&drawing), 2);
//! assert_eq!(rt; pieces(alloc, &drawing)?.len(), 1);
//! ```
#![tactic(auto)]

mod chosen_spots;
mod closed_degrees;
mod connected_lines;
mod degrees;
mod draw_kind;
mod drawing;
mod drawing_maker;
mod drawing_parts;
mod drawing_theorems;
mod drawn_lines;
mod edge;
mod ends_maker;
mod first_lines;
mod growing_theorems;
mod joined_drawing;
mod junctions;
mod limits;
mod line_labels;
mod line_shape;
mod needle_points;
mod next_lines;
mod pass;
mod piece;
mod piece_lines;
mod piece_terms;
mod walk_theorems;

pub use closed_degrees::is_odd_at;
pub use connected_lines::pieces;
pub use draw_kind::DrawKind;
pub use drawing::Drawing;
pub use drawing_maker::{DrawingMaker, is_label_word};
pub use drawing_theorems::{joined_drawings_stay, needles_lead_along, sections_keep_cost};
pub use drawn_lines::{drawing_cost, line_cost, line_ends};
pub use edge::{Edge, Edges};
pub use ends_maker::EndsMaker;
pub use growing_theorems::{
    growing_drawings_keep_limits, joined_drawings_are_valid, walk_ends_keep_drawings_valid,
};
pub use joined_drawing::{join, joined};
pub use limits::{MAX_BLOCKS, MAX_COST, MAX_LINES, MAX_POINTS};
pub use line_sections::{Line, Spot};
pub use needle_points::needles;
pub use pass::{Pass, Walk};
pub use piece::{Piece, Pieces};
pub use step_splitter::MAX_STEP;
pub use walk_theorems::{
    fitting_walks_are_sewable, fitting_walks_are_threads, given_points_are_junctions,
    pieces_are_unique, pieces_are_valid, pieces_keep_limits, runs_are_sewn, spots_are_connected,
};
