ghost use Rattle.outside_io.specs.MemStores.{files_of};
ghost use Rattle.std.specs.Prelude.{◌≡◌, [], unwrap_or};

use outside_io::MemStore;

/// Returns the content of a file in memory, or nothing where there is no file.
pub fn file_content<'a>(store: &'a MemStore, name: &str) -> &'a [u8]
    ensures { result.now ≡ unwrap_or (files_of store.now name.now) [] }
{
    match store.file(name) {
        Some(content) => content,
        None => b"",
    }
}
