ghost use Rattle.std.specs.Prelude.{◌≡◌, ◌++◌, IfOk, OnOk, map, string_bytes};
ghost use Rattle.task_runs.specs.FileLists.{content_in};
ghost use Rattle.task_runs.specs.Replies.{changed_file, changed_files, is_given};
ghost use Rattle.task_runs.specs.TaskStores.{files_now};
ghost use Rattle.task_runs.specs.TaskValues.{file_value};

use crate::file_lists::content_in;
use crate::growing_store::GrowingStore;
use crate::task::TaskFile;
use design_model::{Items, Memory};
use std::alloc::Global;

/// Returns the files of these names that weren't given so, in the order of the names.
pub(crate) fn changed_files<'a>(
    alloc: Global,
    given: &[TaskFile<'_>],
    store: &'a GrowingStore<'_>,
    names: &'a [String],
) -> Result<Items<TaskFile<'a>>, Memory>
    ensures { IfOk result (λ files. map file_value files
        ≡ changed_files (map file_value given.now) (files_now store.now) (map string_bytes names.now)) }
{
    let mut files = Items::new(alloc);
    for name in names {
        add_if_changed(&mut files, given, store, name)?;
    }
    Ok(files)
}

/// Adds the file of a name, if there is one that wasn't given so.
fn add_if_changed<'a>(
    files: &mut Items<TaskFile<'a>>,
    given: &[TaskFile<'_>],
    store: &'a GrowingStore<'_>,
    name: &'a str,
) -> Result<(), Memory>
    ensures { OnOk result (map file_value files.new ≡ map file_value files.old
        ++ changed_file (content_in (map file_value given.now) name.now) name.now (files_now store.now name.now)) }
{
    let Some(content) = store.file(name) else {
        return Ok(());
    };
    if is_given(given, name, content) {
        return Ok(());
    }
    files.push(TaskFile { name, content })?;
    Ok(())
}

/// Returns whether a file with that name and content was given.
fn is_given(given: &[TaskFile<'_>], name: &str, content: &[u8]) -> bool
    ensures { result ≡ is_given (content_in (map file_value given.now) name.now) content.now }
{
    match content_in(given, name) {
        Some(found) => found == content,
        None => false,
    }
}
