ghost use Rattle.std.specs.Prelude.{◌≡◌, IfOk, OnErr, OnOk, map, string_bytes};
ghost use Rattle.task_runs.specs.FileLists.{content_in};
ghost use Rattle.task_runs.specs.NameLists.{ListsFiles, is_listed, with_name};
ghost use Rattle.task_runs.specs.TaskValues.{file_value};

use crate::task::TaskFile;
use design_model::{Items, Memory};
use std::alloc::Global;

/// Returns the names of files, each once.
pub(crate) fn names_of(alloc: Global, files: &[TaskFile<'_>]) -> Result<Items<String>, Memory>
    ensures { IfOk result (λ names. ListsFiles (map string_bytes names)
        (content_in (map file_value files.now))) }
{
    let mut names = Items::new(alloc);
    for file in files {
        add_name(alloc, &mut names, file.name)?;
    }
    Ok(names)
}

/// Adds a name to a list that doesn't have it. An error leaves the list unchanged.
pub(crate) fn add_name(alloc: Global, names: &mut Items<String>, name: &str) -> Result<(), Memory>
    ensures ok { OnOk result (map string_bytes names.new ≡ with_name (map string_bytes names.old) name.now) }
    ensures err { OnErr result (map string_bytes names.new ≡ map string_bytes names.old) }
{
    if is_listed(names.as_slice(), name) {
        return Ok(());
    }
    let owned = name.to_owned(alloc)?;
    names.push(owned)?;
    Ok(())
}

/// Returns whether a list has a name.
fn is_listed(names: &[String], name: &str) -> bool
    ensures { result ≡ is_listed (map string_bytes names.now) name.now }
{
    for other in names {
        if other.as_str() == name {
            return true;
        }
    }
    false
}
