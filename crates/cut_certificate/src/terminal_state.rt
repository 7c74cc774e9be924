ghost use Rattle.cut_certificate.specs.TerminalStates.{covered, surrounded};
ghost use Rattle.std.specs.Prelude.{◌≡◌, ◌<◌, ◌≤◌, All, Some, length, slice_get};

/// The state of a terminal among the moats that were processed.
#[derive(Clone, Copy)]
pub enum TerminalState {
    /// No processed moat holds the terminal.
    Free,
    /// The outermost moat around the terminal has this index, and the terminal is its first member.
    First(usize),
    /// The terminal is another member of the outermost moat around it.
    Inside,
}

/// Returns the state of a terminal.
pub fn state_at(stands: &[TerminalState], t: u32) -> TerminalState
    requires { t < length stands.now }
    ensures { slice_get stands.now t ≡ Some result }
{
    stands[t as usize]
}

/// Records that the moat with an index is the outermost one around its members.
pub fn surround(stands: &mut Vec<TerminalState>, members: &[u32], index: usize)
    requires there { All (λ t. t < length stands.old.items) members.now }
    requires some { 1 ≤ length members.now }
    ensures { stands.new.items ≡ surrounded stands.old.items members.now index }
{
    cover(stands, members);
    stands[members[0] as usize] = TerminalState::First(index);
}

/// Marks all members as inside a moat.
fn cover(stands: &mut Vec<TerminalState>, members: &[u32])
    requires { All (λ t. t < length stands.old.items) members.now }
    ensures value { stands.new.items ≡ covered stands.old.items members.now }
    ensures size { length stands.new.items ≡ length stands.old.items }
{
    let mut rest = members;
    while let [t, after @ ..] = rest {
        stands[*t as usize] = TerminalState::Inside;
        rest = after;
    }
}
