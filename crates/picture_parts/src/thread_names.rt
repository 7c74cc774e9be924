ghost use Rattle.picture_parts.specs.ThreadNames.{name_of_thread};
ghost use Rattle.std.specs.Prelude.{◌≡◌};

/// The names of the threads 1 to 64 of the PEC format, fifteen characters each, with spaces at their ends.
const NAMES: &[u8] = b"Prussian Blue  Blue           Teal Green     Cornflower Blue\
Red            Reddish Brown  Magenta        Light Lilac    \
Lilac          Mint Green     Deep Gold      Orange         \
Yellow         Lime Green     Brass          Silver         \
Russet Brown   Cream Brown    Pewter         Black          \
Ultramarine    Royal Purple   Dark Gray      Dark Brown     \
Deep Rose      Light Brown    Salmon Pink    Vermilion      \
White          Violet         Seacrest       Sky Blue       \
Pumpkin        Cream Yellow   Khaki          Clay Brown     \
Leaf Green     Peacock Blue   Gray           Warm Gray      \
Dark Olive     Flesh Pink     Pink           Deep Green     \
Lavender       Wisteria VioletBeige          Carmine        \
Amber Red      Olive Green    Dark Fuchsia   Tangerine      \
Light Blue     Emerald Green  Purple         Moss Green     \
Flesh Pink     Harvest Gold   Electric Blue  Lemon Yellow   \
Fresh Green    Orange         Cream Yellow   Applique       ";

/// Returns the name of a thread. Beyond the 64 numbers of the PEC format the names repeat.
pub fn thread_name(thread: u8) -> &'static [u8]
    ensures { result.now ≡ name_of_thread thread }
{
    let (_, behind) = NAMES.split_at(15 * ((thread as usize + 63) % 64));
    let (name, _) = behind.split_at(15);
    name.trim_ascii_end()
}
