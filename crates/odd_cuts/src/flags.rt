ghost use Rattle.std.specs.Prelude.{◌≡◌, ℕ, ◌<◌, ◌==◌, ◌||◌, false, get_or, length};

/// Sets the flag at an index, if there is one.
pub(crate) fn set_flag(flags: &mut [bool], index: u32)
    ensures { (i : ℕ) → i < length flags.old
        → get_or flags.new i false ≡ (i == index || get_or flags.old i false) }
{
    let index = index as usize;
    if index < flags.len() {
        flags[index] = true;
    }
}
