ghost use Rattle.record_formats.specs.TwosComplement.{from_twos_complement, to_twos_complement};
ghost use Rattle.record_formats.specs.declared.record_reader.TheConstants.{MAX_RECORD_MOVE};
ghost use Rattle.std.specs.Prelude.{◌≡◌, ◌<◌, ◌≤◌, ◌*◌, unsigned_abs};

/// Returns a number below twice the half, read as two's complement: from the half on, it is negative.
#[inline]
pub fn signed(half: u32, number: u32) -> i32
    requires half { half ≤ MAX_RECORD_MOVE }
    requires number { number < 2 * half }
    ensures value { result ≡ from_twos_complement half number }
    ensures small { unsigned_abs result ≤ half }
{
    if number < half {
        number as i32
    } else {
        number as i32 - 2 * half as i32
    }
}

/// Returns a number from minus the half to below the half, encoded as two's complement.
#[inline]
pub fn unsigned(half: u32, number: i32) -> u32
    requires half { 0 < half }
    requires most { half ≤ MAX_RECORD_MOVE }
    ensures value { result ≡ to_twos_complement half number }
    ensures small { result < 2 * half }
{
    number.rem_euclid(2 * half as i32) as u32
}
