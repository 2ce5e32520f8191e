//! A script: calls on a queue with one owner, their replies, and the items that are left.
ghost use Rattle.std.specs.Prelude.{◌≡◌, [], ◌∷◌, ◌++◌, IfOk, MatchResult};
ghost use Rattle.std.specs.Fmt.{decimal};
ghost use Rattle.queue_steps.specs.Sequential.{SequentialRun, fresh};
ghost use Rattle.app_text.specs.Calls.{call_text, IsCallOfWord};
ghost use Rattle.app_text.specs.KindNames.{IsKindName, capacity_of};
ghost use Rattle.app_text.specs.Replies.{reply_text, replies_text, number_text};
ghost use Rattle.app_text.specs.Streams.{Puts};
ghost use Rattle.app_command.specs.Left.{left_text};
ghost use Rattle.app_command.specs.Runs.{IsRun, IsPartRunFault, IsWritten, IsPartFault, IsWriteFault};
ghost use Rattle.app_command.specs.Scripts.{PlaysAs, BeginsToPlay, IsTranscript, blocks_text};

use app_text::args::KindName;
use app_text::faults::Fault;
use app_text::lines::read_lines;
use app_text::replies::ReplyText;
use app_text::streams::{Pieces, read_input};
use concurrent_queue::{Exclusive, run};
use queue_steps::model::{Call, Reply};
use std::alloc::{AllocError, Allocator};
use std::io::{Read, Write};

/// How many calls are run at a time, so that their replies are written while the script runs.
pub const CALLS_AT_ONCE: usize = 1_024;

const _: () = prove!(CALLS_AT_ONCE == 1_024);

/// Reads a script, runs it on a queue of this kind, and writes the replies, the blocks that a queue without a capacity holds, and what is left.
///
/// # Errors
///
/// `InputFailed`, then `Unreadable`, then `OutputFailed`, and `NoMemory` wherever it is met. On `OutputFailed`, and on
/// `NoMemory` once the lines are read, a beginning of the right output may be written.
pub fn script<A: Allocator, I: Read, O: Write>(
    alloc: &A,
    kind: KindName,
    input: &mut I,
    output: &mut O,
) -> Result<(), Fault>
    requires { IsKindName kind }
    ensures { MatchResult result
        (λ _. IsRun IsCallOfWord call_text (IsTranscript kind)
        (I.remaining input.old) (O.contents output.old) (O.contents output.new))
        (IsPartRunFault IsCallOfWord call_text (IsTranscript kind)
        (I.remaining input.old) (O.contents output.old) (O.contents output.new)) }
{
    let bytes = read_input(alloc, input)?;
    let calls = read_lines::<Call<u64>, &A>(alloc, &bytes)?;
    transcript(alloc, kind, &calls, output)
}

/// Writes what a script of these calls prints, piece by piece while they run.
///
/// # Errors
///
/// `NoMemory` and `OutputFailed`; a beginning of the right output may be written then.
pub fn transcript<A: Allocator, O: Write>(
    alloc: &A,
    kind: KindName,
    calls: &[Call<u64>],
    output: &mut O,
) -> Result<(), Fault>
    requires { IsKindName kind }
    ensures { MatchResult result
        (λ _. IsWritten (IsTranscript kind calls.now) (O.contents output.old) (O.contents output.new))
        (IsWriteFault (IsTranscript kind calls.now) (O.contents output.old) (O.contents output.new)) }
{
    let Ok(mut queue) = queue_of(alloc, kind) else {
        return Err(Fault::NoMemory);
    };
    let Ok(mut pieces) = Pieces::new(alloc) else {
        return Err(Fault::NoMemory);
    };
    play(alloc, &mut queue, calls, &mut pieces, output)?;
    put_blocks(kind, queue.blocks(), &mut pieces, output)?;
    drain(&mut queue, &mut pieces, output)?;
    pieces.end(output)
}

// An empty open queue of this kind.
fn queue_of<A: Allocator + Clone>(alloc: A, kind: KindName) -> Result<Exclusive<u64, A>, AllocError>
    requires { IsKindName kind }
    ensures { IfOk result (λ queue. queue ≡ fresh (capacity_of kind)) }
{
    match kind {
        KindName::Single => Exclusive::bounded(alloc, 1),
        KindName::Bounded(cap) => Exclusive::bounded(alloc, cap),
        KindName::Unbounded => Ok(Exclusive::unbounded(alloc)),
    }
}

// Puts the line that tells of the blocks, if a queue of this kind has it.
#[tactic(auto, using(app_text::proofs::Writing::put_nothing))]
fn put_blocks<A: Allocator, O: Write>(
    kind: KindName,
    count: usize,
    pieces: &mut Pieces<A>,
    output: &mut O,
) -> Result<(), Fault>
    ensures { Puts pieces.old (blocks_text kind count) pieces.new (O.contents output.old) (O.contents output.new) result }
{
    match kind {
        KindName::Unbounded => put_line("blocks ", Some(count as u64), pieces, output),
        _ => Ok(()),
    }
}

// Runs the calls, a part of them at a time, and puts the reply to each as a line.
fn play<A: Allocator + Copy, O: Write>(
    alloc: A,
    queue: &mut Exclusive<u64, A>,
    calls: &[Call<u64>],
    pieces: &mut Pieces<A>,
    output: &mut O,
) -> Result<(), Fault>
    ensures { MatchResult result
        (λ _. PlaysAs queue.old calls.now queue.new pieces.old pieces.new (O.contents output.old) (O.contents output.new))
        (λ why. IsPartFault why × BeginsToPlay queue.old calls.now pieces.old (O.contents output.old) (O.contents output.new)) }
{
    for part in calls.chunks(CALLS_AT_ONCE) {
        let Ok(replies) = answers(alloc, queue, part) else {
            return Err(Fault::NoMemory);
        };
        put_replies(&replies, pieces, output)?;
    }
    Ok(())
}

// Makes the calls, and gives the replies to them.
fn answers<A: Allocator + Copy>(
    alloc: A,
    queue: &mut Exclusive<u64, A>,
    calls: &[Call<u64>],
) -> Result<Vec<Reply<u64>, A>, AllocError>
    ensures { IfOk result (λ replies. SequentialRun queue.old calls.now replies.items queue.new) }
{
    run(alloc, queue, Vec::from_slice(alloc, calls)?)
}

// Puts each reply as a line.
fn put_replies<A: Allocator, O: Write>(
    replies: &[Reply<u64>],
    pieces: &mut Pieces<A>,
    output: &mut O,
) -> Result<(), Fault>
    ensures { Puts pieces.old (replies_text replies.now) pieces.new (O.contents output.old) (O.contents output.new) result }
{
    for reply in replies {
        put_reply(*reply, pieces, output)?;
    }
    Ok(())
}

// Puts a reply as a line.
fn put_reply<A: Allocator, O: Write>(
    reply: Reply<u64>,
    pieces: &mut Pieces<A>,
    output: &mut O,
) -> Result<(), Fault>
    ensures { Puts pieces.old (reply_text reply ++ 10 ∷ []) pieces.new (O.contents output.old) (O.contents output.new) result }
{
    let (words, number) = ReplyText(reply).parts();
    put_line(words, number, pieces, output)
}

// Puts a line of words, and of a number behind them, if there is one.
fn put_line<A: Allocator, O: Write>(
    words: &str,
    number: Option<u64>,
    pieces: &mut Pieces<A>,
    output: &mut O,
) -> Result<(), Fault>
    ensures { Puts pieces.old ((words.now ++ number_text number) ++ 10 ∷ []) pieces.new (O.contents output.old) (O.contents output.new) result }
{
    pieces.put(words.as_bytes(), output)?;
    put_some(number, pieces, output)?;
    pieces.put(b"\n", output)
}

// Puts a number, if there is one.
#[tactic(auto, using(app_text::proofs::Writing::put_nothing))]
fn put_some<A: Allocator, O: Write>(
    number: Option<u64>,
    pieces: &mut Pieces<A>,
    output: &mut O,
) -> Result<(), Fault>
    ensures { Puts pieces.old (number_text number) pieces.new (O.contents output.old) (O.contents output.new) result }
{
    match number {
        Some(number) => pieces.put_number(number, output),
        None => Ok(()),
    }
}

// Takes the items off that are left, and puts the line that tells of them.
fn drain<A: Allocator, B: Allocator, O: Write>(
    queue: &mut Exclusive<u64, A>,
    pieces: &mut Pieces<B>,
    output: &mut O,
) -> Result<(), Fault>
    ensures { Puts pieces.old (left_text queue.old.queue.items) pieces.new (O.contents output.old) (O.contents output.new) result }
{
    pieces.put(b"left", output)?;
    for item in queue.try_iter() {
        put_item(item, pieces, output)?;
    }
    pieces.put(b"\n", output)
}

// Puts an item behind a space.
fn put_item<A: Allocator, O: Write>(
    item: u64,
    pieces: &mut Pieces<A>,
    output: &mut O,
) -> Result<(), Fault>
    ensures { Puts pieces.old (32 ∷ decimal item) pieces.new (O.contents output.old) (O.contents output.new) result }
{
    pieces.put(b" ", output)?;
    pieces.put_number(item, output)
}
