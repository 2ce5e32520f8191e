// Each operation on a word is one atomic step.
ghost use types.Logic.{sem};
ghost use Rattle.std.specs.Sync.RawAtomic.{asks, always};
ghost use Rattle.mem_blocks.specs.Words.{becomes, answered};

use crate::operation::Operation;
use atomic_table::exchange;
use std::marker::Brand;
use std::sync::atomic::Ordering::SeqCst;
use std::sync::atomic::raw;
use std::sync::atomic::raw::Outcome;

// Does the operation on the word at `place`, and answers with the number that it tells.
#[inline(always)]
pub(crate) unsafe fn operate<O: Outcome>(
    place: *const u64,
    operation: Operation,
    first: u64,
    second: u64,
) -> u64
    requires* { asks 𝓛 place (becomes operation first second) always (λ n. O.after (answered operation first n)) }
    ensures* { sem 𝓛 (O.after result) }
{
    match operation {
        Operation::Load => unsafe { raw::load::<Brand>(place, SeqCst) },
        Operation::Store => {
            unsafe { raw::store::<Brand>(place, first, SeqCst) };
            first
        }
        Operation::Add => unsafe { raw::fetch_add::<Brand>(place, first, SeqCst) },
        Operation::Subtract => unsafe { raw::fetch_sub::<Brand>(place, first, SeqCst) },
        Operation::Or => unsafe { raw::fetch_or::<Brand>(place, first, SeqCst) },
        Operation::Exchange => unsafe { exchange::<Brand>(place, first, second) },
    }
}
