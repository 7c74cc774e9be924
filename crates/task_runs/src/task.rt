use design_model::Items;

/// A file that a run may read.
#[derive(Clone, Copy)]
pub struct TaskFile<'a> {
    pub name: &'a str,
    pub content: &'a [u8],
}

/// A task: the arguments of a run, and the files that it may read. The files aren't copied.
#[derive(Drop)]
pub struct Task<'a> {
    pub words: Items<String>,
    pub files: Items<TaskFile<'a>>,
}
