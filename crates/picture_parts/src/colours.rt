ghost use Rattle.picture_parts.specs.Colours.{colour_of_thread};
ghost use Rattle.std.specs.Prelude.{◌≡◌};

/// The colours of the threads 1 to 64 of the PEC format, seven characters each.
const COLOURS: &[u8] =
    b"#0e1f7c#0a55a3#008777#4b6baf#ed171f#d15c00#913697#e49acb#915fac#9ed67d#e8a900#feba35#ffff00#70bc1f#ba9800#a8a8a8\
#7d6f00#ffffb3#4f5556#000000#0b3d91#770176#293133#2a1301#f64a8a#b27624#fcbbc5#fe370f#f0f0f0#6a1c8a#a8ddc4#2584bb\
#feb343#fff36b#d0a660#d15400#66ba49#134a46#878787#d8ccc6#435607#fdd9de#f993bc#003822#b2afd4#686ab0#efe3b9#f73866\
#b54b64#132b1a#c70156#fe9e32#a8deeb#00673e#4e2990#2f7e20#ffcccc#ffd911#095ba6#f0f970#e3f35b#ff9900#fff08d#ffc8c8";

/// Returns the colour of a thread, as `#` and six hexadecimal digits. Beyond the 64 numbers of the PEC
/// format the colours repeat.
pub fn thread_colour(thread: u8) -> &'static [u8]
    ensures { result.now ≡ colour_of_thread thread }
{
    let (_, behind) = COLOURS.split_at(7 * ((thread as usize + 63) % 64));
    let (colour, _) = behind.split_at(7);
    colour
}
