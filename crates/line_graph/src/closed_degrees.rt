ghost use Rattle.line_graph.specs.ClosedDegrees.{closing_ends};
ghost use Rattle.line_graph.specs.PieceGraphs.{one_if, is_odd};
ghost use Rattle.std.specs.Prelude.{◌≡◌, ◌+◌, ◌≤◌};

/// Returns whether the junction at an index is odd, given its degree, where a closing line leads from `to` to
/// `from`.
pub fn is_odd_at(at: u32, degree: u32, from: Option<u32>, to: Option<u32>) -> bool
    ensures { result ≡ is_odd (closing_ends from to at + degree) }
{
    (back_ends(at, from, to) + degree % 2) % 2 == 1
}

/// Returns the number of ends of the closing line at a junction.
fn back_ends(at: u32, from: Option<u32>, to: Option<u32>) -> u32
    ensures value { result ≡ closing_ends from to at }
    ensures most { result ≤ 2 }
{
    match from {
        Some(from) => match to {
            Some(to) => bit(to == at) + bit(from == at),
            None => 0,
        },
        None => 0,
    }
}

/// Returns 1 for true and 0 for false.
fn bit(is: bool) -> u32
    ensures value { result ≡ one_if is }
    ensures most { result ≤ 1 }
{
    if is { 1 } else { 0 }
}
