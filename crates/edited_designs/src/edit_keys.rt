ghost use Rattle.edited_designs.specs.DesignChanges.{IsDesignEdit, design_change};
ghost use Rattle.edited_designs.specs.EditKeys.{change_by, least_of, most_of, named_key};
ghost use Rattle.std.specs.Prelude.{◌≡◌, ◌≤◌};

use crate::design_edit::DesignEdit;
use sewing_edits::{MAX_BEAN, MAX_REACH, MAX_SCALE, MAX_TIE, MIN_TIE};

/// The length of a tie where none is given, in tenths of a millimetre.
pub const DEFAULT_TIE: u32 = 10;

/// The greatest limit of a merge, in tenths of a millimetre.
pub const MAX_MERGE: u32 = 100;

/// The name of an edit that takes a number.
#[derive(Clone, Copy)]
pub enum EditKey {
    Tie,
    Cut,
    Float,
    Merge,
    Bean,
    Scale,
}

/// Returns the key of that name, if there is one.
pub fn edit_key(name: &[u8]) -> Option<EditKey>
    ensures { result ≡ named_key name.now }
{
    match name {
        name if name == b"tie".as_slice() => Some(EditKey::Tie),
        name if name == b"cut".as_slice() => Some(EditKey::Cut),
        name if name == b"float".as_slice() => Some(EditKey::Float),
        name if name == b"merge".as_slice() => Some(EditKey::Merge),
        name if name == b"bean".as_slice() => Some(EditKey::Bean),
        name if name == b"scale".as_slice() => Some(EditKey::Scale),
        _ => None,
    }
}

impl EditKey {
    /// Returns the least number of the key.
    pub fn least(self) -> u32
        ensures { result ≡ least_of self }
    {
        match self {
            EditKey::Tie => MIN_TIE,
            EditKey::Cut => 0,
            EditKey::Float | EditKey::Merge | EditKey::Bean | EditKey::Scale => 1,
        }
    }

    /// Returns the greatest number of the key.
    pub fn most(self) -> u32
        ensures { result ≡ most_of self }
    {
        match self {
            EditKey::Tie => MAX_TIE,
            EditKey::Cut | EditKey::Float => MAX_REACH,
            EditKey::Merge => MAX_MERGE,
            EditKey::Bean => MAX_BEAN,
            EditKey::Scale => MAX_SCALE,
        }
    }

    /// Returns the edit by the key and a number in its range.
    pub fn edit(self, number: u32) -> DesignEdit<'static>
        requires least { least_of self ≤ number }
        requires most { number ≤ most_of self }
        ensures value { design_change result ≡ change_by self number }
        ensures bounds { IsDesignEdit result }
    {
        match self {
            EditKey::Tie => DesignEdit::Tie(number),
            EditKey::Cut => DesignEdit::Cut(number),
            EditKey::Float => DesignEdit::Carry(number),
            EditKey::Merge => DesignEdit::Merge(number),
            EditKey::Bean => DesignEdit::Bean(number),
            EditKey::Scale => DesignEdit::Scale(number),
        }
    }
}
