//! The gates of a held call and of a call that waits for it, and the signs that their threads show each other.
ghost use Rattle.concurrent_queue.specs.Shared.{IsPartyOf};

use call_driver::gate::Gate;
use concurrent_queue::{ConcurrentQueue, NullTestable, Party};
use queue_steps::model::{Call, Reply};
use queue_steps::steps::{Link, Op, READ, WRITE, Word};
use shared_chain::source::Granting;
use std::sync::Wait;
use std::sync::atomic::{AtomicBool, Ordering};
use test_support::allocators::Heap;
use test_support::signs::wait_for;

/// What tells the fast steps of the calls that pass a gate from those of other callers.
struct Told;

/// What the two threads of a story show each other.
#[derive(Drop)]
pub(crate) struct Signs {
    /// The call is held.
    pub(crate) held: AtomicBool,
    /// The other party's calls are answered, or have met the held one.
    pub(crate) met: AtomicBool,
    /// The held call goes on, after that was so while it was held.
    pub(crate) let_go: AtomicBool,
    /// The held call has its reply.
    pub(crate) ended: AtomicBool,
}

impl Signs {
    pub(crate) fn new() -> Self {
        Signs {
            held: AtomicBool::new(false),
            met: AtomicBool::new(false),
            let_go: AtomicBool::new(false),
            ended: AtomicBool::new(false),
        }
    }
}

/// Whether this is the operation of a step, by the step's name in `docs/STEPS.md`. It has those that a story may name, and those to which a call on a ring comes again while it waits for an item that is coming.
fn is_step<B: Copy>(step: &str, op: &Op<B>) -> bool {
    match op {
        Op::And(Word::Lock, _) => step == "P2" || step == "O2",
        Op::Load(Word::Tail) => step == "B1",
        Op::Load(Word::Head) => step == "O1",
        Op::Store(Word::Stamp(_), _) => step == "B4" || step == "O4",
        Op::Add(Word::Tail, _) => step == "F6",
        Op::StoreLink(Link::TailBlock, _) => step == "U6",
        Op::Or(Word::State(_, _), bit) => {
            *bit == WRITE && step == "U9" || *bit == READ && step == "V10"
        }
        _ => false,
    }
}

/// The gate of a call that is held before a step, until the other party's calls are answered, or have met it. A request of theirs that is held goes on then.
#[derive(Drop)]
pub(crate) struct Holding<'a> {
    pub(crate) step: &'a str,
    /// The call is to begin when a request of theirs is held.
    pub(crate) once_asked: bool,
    pub(crate) signs: &'a Signs,
    pub(crate) heap: &'a Heap,
}

impl Gate for Holding<'_> {
    fn pass<B: Copy>(&self, op: &Op<B>) {
        if is_step(self.step, op) {
            self.signs.held.store(true, Ordering::SeqCst);
            self.heap.let_go();
            let met = wait_for(&self.signs.met);
            self.signs.let_go.store(met, Ordering::SeqCst);
        }
    }
}

/// The gate of a call that waits: when it comes to this step again it has found the held call in its way, and that one may go on.
#[derive(Drop)]
struct Waiting<'a> {
    step: &'a str,
    signs: &'a Signs,
    came: AtomicBool,
}

impl Gate for Waiting<'_> {
    fn pass<B: Copy>(&self, op: &Op<B>) {
        if is_step(self.step, op) && self.came.swap(true, Ordering::SeqCst) {
            self.signs.met.store(true, Ordering::SeqCst);
        }
    }
}

/// Makes a call that is held at this gate. It lets a request go that is held when it has ended, at the latest.
pub(crate) fn call_held<T, A: NullTestable, R: Wait>(
    rt: &R,
    queue: &ConcurrentQueue<T, A>,
    mut party: Party<T>,
    call: Call<T>,
    gate: &Holding<'_>,
) -> (Party<T>, Reply<T>)
    requires { IsPartyOf party queue.now }
    ensures { IsPartyOf result.0 queue.now }
{
    if gate.once_asked {
        gate.heap.comes_to_hold();
    }
    let reply = queue.answer::<Granting, R, Holding<'_>, Told>(rt, gate, &mut party, call);
    gate.heap.let_go();
    gate.signs.ended.store(true, Ordering::SeqCst);
    (party, reply)
}

/// Makes a call on a ring that has to wait for an item that is coming.
pub(crate) fn call_waiting<'a, T, A: NullTestable, R: Wait>(
    rt: &R,
    queue: &ConcurrentQueue<T, A>,
    party: &mut Party<T>,
    call: Call<T>,
    signs: &'a Signs,
) -> Reply<T>
    requires { IsPartyOf party.old queue.now }
    ensures { IsPartyOf party.new queue.now }
{
    let step = match &call {
        Call::Pop => "O1",
        _ => "B1",
    };
    let came = AtomicBool::new(false);
    let gate = Waiting { step, signs, came };
    queue.answer::<Granting, R, Waiting<'_>, Told>(rt, &gate, party, call)
}
