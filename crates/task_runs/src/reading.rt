ghost use Rattle.std.specs.Prelude.{map, string_bytes};
ghost use Rattle.task_runs.specs.TaskReading.{counted_in, packed_file_in, items_in, task_of, text_in};
ghost use Rattle.task_runs.specs.TaskValues.{IsReadAs, file_value, task_value};

use crate::numbers::split_number;
use crate::parts::{split_file, split_text};
use crate::task::{Task, TaskFile};
use crate::task_fault::TaskFault;
use design_model::Items;
use std::alloc::Global;

/// Reads a task: the number of its arguments, each as its length and its bytes, then the number of its files, each as
/// the length and bytes of its name and of its content. Numbers have 32 bits, the low byte first. Nothing may follow.
pub fn read_task<'a>(alloc: Global, bytes: &'a [u8]) -> Result<Task<'a>, TaskFault>
    ensures { IsReadAs task_value (task_of bytes.now) result }
{
    let (words, rest) = read_words(alloc, bytes)?;
    let (files, rest) = read_files(alloc, rest)?;
    if rest.is_empty() {
        Ok(Task { words, files })
    } else {
        Err(TaskFault::BytesLeft)
    }
}

fn read_words(alloc: Global, bytes: &[u8]) -> Result<(Items<String>, &[u8]), TaskFault>
    ensures { IsReadAs (λ r. record { value = map string_bytes r.0; rest = r.1.now })
        (counted_in text_in bytes.now) result }
{
    match split_number(bytes) {
        Some((count, rest)) => words_after(alloc, count, rest),
        None => Err(TaskFault::CutOff),
    }
}

/// Reads that number of arguments.
fn words_after(alloc: Global, count: u32, bytes: &[u8]) -> Result<(Items<String>, &[u8]), TaskFault>
    ensures { IsReadAs (λ r. record { value = map string_bytes r.0; rest = r.1.now })
        (items_in text_in count bytes.now) result }
{
    let mut words = Items::new(alloc);
    let mut rest = bytes;
    let mut left = count;
    while left > 0 {
        let (text, after) = split_text(rest)?;
        let Ok(word) = text.to_owned(alloc) else {
            return Err(TaskFault::Memory);
        };
        words.push(word)?;
        rest = after;
        left -= 1;
    }
    Ok((words, rest))
}

fn read_files(alloc: Global, bytes: &[u8]) -> Result<(Items<TaskFile<'_>>, &[u8]), TaskFault>
    ensures { IsReadAs (λ r. record { value = map file_value r.0; rest = r.1.now })
        (counted_in packed_file_in bytes.now) result }
{
    match split_number(bytes) {
        Some((count, rest)) => files_after(alloc, count, rest),
        None => Err(TaskFault::CutOff),
    }
}

/// Reads that number of files.
fn files_after(
    alloc: Global,
    count: u32,
    bytes: &[u8],
) -> Result<(Items<TaskFile<'_>>, &[u8]), TaskFault>
    ensures { IsReadAs (λ r. record { value = map file_value r.0; rest = r.1.now })
        (items_in packed_file_in count bytes.now) result }
{
    let mut files = Items::new(alloc);
    let mut rest = bytes;
    let mut left = count;
    while left > 0 {
        let (file, after) = split_file(rest)?;
        files.push(file)?;
        rest = after;
        left -= 1;
    }
    Ok((files, rest))
}
