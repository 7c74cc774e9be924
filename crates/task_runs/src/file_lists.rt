ghost use Rattle.std.specs.Prelude.{◌≡◌, ◌∷◌, [], map, option_map};
ghost use Rattle.task_runs.specs.FileLists.{content_after, content_in};
ghost use Rattle.task_runs.specs.TaskValues.{file_value};

use crate::task::TaskFile;

/// Returns the content of a name among files, of which the later counts.
pub(crate) fn content_in<'a>(files: &[TaskFile<'a>], name: &str) -> Option<&'a [u8]>
    ensures { option_map (λ bytes. bytes.now) result ≡ content_in (map file_value files.now) name.now }
{
    let mut found = None;
    for file in files {
        found = later(found, *file, name);
    }
    found
}

/// Returns the content of a file if it has that name, and else what was found before.
fn later<'a>(found: Option<&'a [u8]>, file: TaskFile<'a>, name: &str) -> Option<&'a [u8]>
    ensures { option_map (λ bytes. bytes.now) result
        ≡ content_after (option_map (λ bytes. bytes.now) found.entry) (file_value file.entry ∷ []) name.now }
{
    if file.name == name {
        return Some(file.content);
    }
    found
}
