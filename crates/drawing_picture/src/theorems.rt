ghost use Rattle.drawing_picture.specs.BandLaws.{BandsShowLoads};
ghost use Rattle.drawing_picture.specs.CheckedProofs.{RightCertificatesAreSewn};
ghost use Rattle.drawing_picture.specs.DrawnLaws.{MarksShowJunctions, PathsShowSegments};
ghost use Rattle.drawing_picture.specs.LabelLaws.{LabelsStandApart, SidesHaveLabels};

use line_graph::{
    fitting_walks_are_sewable, needles_lead_along, pieces_are_valid, pieces_keep_limits,
    runs_are_sewn,
};
use odd_cuts::{
    cut_faults_are_exact, packings_bound_walks, packings_keep_their_total, walk_faults_are_exact,
};
use route_verdict::{correct_routes_are_accepted, yes_is_least_redwork};

/// Theorem: the bands on a line show its load. Each cut that the line leads out of has one band there, as long
/// as the weight of the cut, and all bands together are as long as the load.
pub fn bands_show_loads()
    ensures { BandsShowLoads }
{
    needles_lead_along();
}

/// Theorem: certificates without a fault can be sewn, as least redwork.
pub fn right_certificates_are_sewn()
    ensures { RightCertificatesAreSewn }
{
    walk_faults_are_exact();
    cut_faults_are_exact();
    packings_bound_walks();
    packings_keep_their_total();
    fitting_walks_are_sewable();
    pieces_are_valid();
    pieces_keep_limits();
    runs_are_sewn();
    correct_routes_are_accepted();
    yes_is_least_redwork();
}

/// Theorem: the picture of a drawing draws each segment of a line once and in order, and marks each junction of
/// a piece once, as odd where it is. Each of its labels stands once, on one side, and in a row of its own.
pub fn drawings_are_shown()
    ensures segments { PathsShowSegments }
    ensures junctions { MarksShowJunctions }
    ensures sides { SidesHaveLabels }
    ensures rows { LabelsStandApart }
{}
