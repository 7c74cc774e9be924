ghost use Rattle.design_review.specs.Differences.{thread_difference_from, thread_difference_of};
ghost use Rattle.std.specs.Prelude.{◌≡◌, ◌≤◌, ◌^◌};

use crate::difference::ThreadDifference;
use design_model::{Design, counts};

/// Returns the first difference of the threads of the blocks of two designs, as many as the first has, or `None` where they
/// are the same.
pub fn thread_difference(first: &Design, second: &Design) -> Option<ThreadDifference>
    ensures { result ≡ thread_difference_of first.now second.now }
{
    let blocks = counts(first).stops as u64 + 1;
    difference_among(first, second, blocks)
}

fn difference_among(first: &Design, second: &Design, blocks: u64) -> Option<ThreadDifference>
    requires { blocks ≤ 2 ^ 32 }
    ensures { result ≡ thread_difference_from first.now second.now 0 blocks }
{
    let mut block: u64 = 0;
    while block < blocks {
        let ours = first.thread(block as u32);
        let theirs = second.thread(block as u32);
        if ours != theirs {
            return Some(ThreadDifference {
                block: block + 1,
                first: ours,
                second: theirs,
            });
        }
        block += 1;
    }
    None
}
