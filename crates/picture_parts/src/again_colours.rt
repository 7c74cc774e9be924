ghost use Rattle.picture_parts.specs.AgainColours.{again_blue, again_colour_of, again_orange, channel_of, colour_distance, difference_squared, digit_if_there, digit_value};
ghost use Rattle.std.specs.Prelude.{◌≡◌, ◌<◌, ◌^◌, slice_get};

use crate::colours::thread_colour;

/// The two colours of what is sewn again.
const BLUE: &[u8] = b"#1d3bd1";

const ORANGE: &[u8] = b"#ff6a00";

/// Returns the colour of what is sewn again with a thread, as `#` and six hexadecimal digits: of blue and orange the
/// one that is farther from the thread's colour.
#[tactic(auto, unfolding(crate::specs::AgainColours::again_colour_of))]
pub fn again_colour(thread: u8) -> &'static [u8]
    ensures { result.now ≡ again_colour_of thread }
{
    let colour = thread_colour(thread);
    if distance(colour, ORANGE) <= distance(colour, BLUE) {
        return BLUE;
    }
    ORANGE
}

/// Returns the square of the distance of two colours, in red, green and blue from 0 to 255.
fn distance(a: &[u8], b: &[u8]) -> u128
    ensures { result ≡ colour_distance a.now b.now }
{
    squared(channel(a, 1), channel(b, 1))
        + (squared(channel(a, 3), channel(b, 3)) + squared(channel(a, 5), channel(b, 5)))
}

fn squared(a: u32, b: u32) -> u128
    ensures value { result ≡ difference_squared a b }
    ensures most { result < 2 ^ 64 }
{
    let difference = a.max(b) - a.min(b);
    difference as u128 * difference as u128
}

/// Returns red, green or blue of a colour, whose two digits begin at an index.
fn channel(colour: &[u8], index: usize) -> u32
    requires { index < 256 }
    ensures { result ≡ channel_of colour.now index }
{
    16 * digit(colour, index) + digit(colour, index + 1)
}

fn digit(colour: &[u8], index: usize) -> u32
    ensures value { result ≡ digit_if_there (slice_get colour.now index) }
    ensures most { result < 256 }
{
    match colour.get(index) {
        Some(code) => number(*code),
        None => 0,
    }
}

/// Returns the number of a hexadecimal digit, in small letters.
fn number(code: u8) -> u32
    ensures value { result ≡ digit_value code }
    ensures most { result < 256 }
{
    if code >= b'a' {
        return code as u32 - 87;
    }
    (code as u32).saturating_sub(48)
}
