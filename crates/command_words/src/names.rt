ghost use Rattle.command_words.specs.Names.{if_named, names_and_rest, one_name, three_names, three_words, two_names};
ghost use Rattle.command_words.specs.ValidNames.{AreFileNames, AreRouteNames, file_names_value, route_names_value};
ghost use Rattle.outside_io.specs.Files.{IsFileName};
ghost use Rattle.std.specs.Prelude.{◌≡◌, IfSome, map, option_map, string_bytes};

use outside_io::is_name;

/// Two file names: of the file that is read, and of the one that is written.
#[derive(Clone, Copy)]
pub struct FileNames<'a> {
    pub input: &'a str,
    pub output: &'a str,
}

/// The file names of a drawing, of the design that sews it, and of their certificate.
#[derive(Clone, Copy)]
pub struct RouteNames<'a> {
    pub drawing: &'a str,
    pub design: &'a str,
    pub cert: &'a str,
}

/// Returns an argument, if it is a file name.
pub fn file_name(word: &str) -> Option<&str>
    ensures value { option_map (λ name. name.now) result ≡ if_named word.now }
    ensures name { IfSome result (λ name. IsFileName name.now) }
{
    if is_name(word) { Some(word) } else { None }
}

/// Returns the one argument, if it is a file name.
pub fn only_name(words: &[String]) -> Option<&str>
    ensures value { option_map (λ name. name.now) result
        ≡ one_name (map (λ word. string_bytes word) words.now) }
    ensures name { IfSome result (λ name. IsFileName name.now) }
{
    match words {
        [name] => file_name(name.as_str()),
        _ => None,
    }
}

/// Returns the two file names with which arguments begin, and the arguments after them.
pub fn named_rest(words: &[String]) -> Option<(FileNames<'_>, &[String])>
    ensures value { option_map (λ all. (
      all.0.input.now,
      all.0.output.now,
      map (λ word. string_bytes word) all.1.now,
    )) result
        ≡ names_and_rest (map (λ word. string_bytes word) words.now) }
    ensures names { IfSome result (λ all. AreFileNames all.0) }
{
    let [input, output, rest @ ..] = words else {
        return None;
    };
    if is_name(input.as_str()) && is_name(output.as_str()) {
        let (input, output) = (input.as_str(), output.as_str());
        Some((FileNames { input, output }, rest))
    } else {
        None
    }
}

/// Returns the two file names that arguments are.
pub fn file_names(words: &[String]) -> Option<FileNames<'_>>
    ensures value { option_map file_names_value result
        ≡ two_names (names_and_rest (map (λ word. string_bytes word) words.now)) }
    ensures names { IfSome result AreFileNames }
{
    match named_rest(words)? {
        (names, []) => Some(names),
        _ => None,
    }
}

/// Returns the three file names that arguments are.
pub fn route_names(words: &[String]) -> Option<RouteNames<'_>>
    ensures value { option_map route_names_value result
        ≡ three_names (three_words (map (λ word. string_bytes word) words.now)) }
    ensures names { IfSome result AreRouteNames }
{
    let (drawing, design, cert) = three(words)?;
    if is_name(drawing) && is_name(design) && is_name(cert) {
        Some(RouteNames {
            drawing,
            design,
            cert,
        })
    } else {
        None
    }
}

/// Returns the arguments, if there are three.
pub(crate) fn three(words: &[String]) -> Option<(&str, &str, &str)>
    ensures { option_map (λ all. (all.0.now, all.1.now, all.2.now)) result
        ≡ three_words (map (λ word. string_bytes word) words.now) }
{
    match words {
        [first, second, third] => Some((first.as_str(), second.as_str(), third.as_str())),
        _ => None,
    }
}
