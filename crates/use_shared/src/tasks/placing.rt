//! Outputs are put in the order of their tasks.
ghost use Rattle.std.specs.Prelude.{◌≡◌, ◌≢◌, ◌≤◌, ◌<◌, ◌==◌, ℕ, [], length, map, replicate, slice_set, None, Some, IfOk, vec_capacity};
ghost use Rattle.std.specs.List.{All, count_by};

use crate::tasks::numbered::{Batch, Finished};
use crate::tasks::stepped::Task;
use concurrent_queue::Exclusive;
use std::alloc::{AllocError, Allocator};

/// So many empty places, and room for as many outputs.
///
/// # Errors
///
/// There was no memory.
pub(crate) fn room<O: Drop, A: Allocator + Clone>(
    alloc: &A,
    count: usize,
) -> Result<(Vec<Option<O>, A>, Vec<O, A>), AllocError>
    ensures { IfOk result (λ r. (r.0.items ≡ replicate count None) × (r.1.items ≡ []) × (count ≤ vec_capacity r.1)) }
{
    let mut places = Vec::with_capacity(alloc.clone()?, count)?;
    for _ in 0..count {
        places.push_reserved(None);
    }
    let outputs = Vec::with_capacity(alloc.clone()?, count)?;
    Ok((places, outputs))
}

/// Puts each output into the place of its number.
pub(crate) fn place<K: Batch<T::Output>, T: Task, A: Allocator>(
    places: &mut Vec<Option<T::Output>, A>,
    finished: Exclusive<Finished<K, T>, A>,
)
    requires places { places.old.items ≡ replicate (length K.outcomes) None }
    requires each { (i : ℕ) → i < length K.outcomes → count_by (λ d. d.number == i) finished.queue.items ≡ 1 }
    ensures { places.new.items ≡ map Some K.outcomes }
{
    for done in finished {
        let (number, output) = done.into_parts();
        put_at(places, number, output);
    }
}

/// Puts an output into this place.
fn put_at<O: Drop, A: Allocator>(places: &mut Vec<Option<O>, A>, number: usize, output: O)
    requires { number < length places.old.items }
    ensures { places.new.items ≡ slice_set places.old.items number (Some output) }
{
    places[number] = Some(output);
}

/// What is in the places, all of which are full.
pub(crate) fn contents<O: Drop, A: Allocator>(
    places: Vec<Option<O>, A>,
    outputs: Vec<O, A>,
) -> Vec<O, A>
    requires full { All (λ place. place ≢ None) places.items }
    requires empty { outputs.items ≡ [] }
    requires room { length places.items ≤ vec_capacity outputs }
    ensures { map Some result.items ≡ places.items }
{
    let mut outputs = outputs;
    for place in places {
        match place {
            Some(output) => outputs.push_reserved(output),
            None => unreachable!(),
        }
    }
    outputs
}
