//! A queue that parties share over a table: the first word counts the parties, the other words and the slots are those of its kind.
ghost use Rattle.std.specs.Prelude.{◌≡◌, ◌<◌, ◌≤◌, ℕ};
ghost use Rattle.shared_parties.specs.Calling.{touched_list};
ghost use Rattle.shared_tables.specs.TableRule.{TableOf, TableLaws, InTable};
ghost use Rattle.queue_laws.specs.Common.Operations.{answer_for};
ghost use Rattle.shared_tables.specs.TableTurns.{Follows, TableCan, TableDoes};
ghost use Rattle.shared_parties.specs.CallsAt.{Ready};

use crate::clauses::{compare_exchange, fetch_add, fetch_or, fetch_sub, load, store};
use crate::touching::touch;
use atomic_table::{Play, Seat, Shared, Table, TableRule};
use call_driver::site::{SharedSite, Site};
use queue_steps::model::CallKind;
use queue_steps::steps::{Answer, Kind, KindSteps, Local, Op, Touch, Word};
use shared_parties::call_tag::CallTag;
use shared_parties::known::CallState;
use std::alloc::Allocator;
use std::marker::{Brand, PhantomData};

/// How large the table of a kind of queue is.
pub trait Sizes {
    /// How many slots there are at least, and at most.
    ghost least: { ℕ };

    ghost most: { ℕ };

    /// How many words there are, by the number of slots.
    ghost words: { ℕ → ℕ };
}

/// A kind of queue whose words and slots lie in a table.
pub trait TableKind<T> {
    /// What the table is, by its number of slots.
    ghost layout: { ℕ → TableOf T };
}

/// How the calls on such a queue take their steps.
pub trait TableSteps<T>: Sizes + TableKind<T> {
    /// Which steps they are.
    type Steps: KindSteps;

    /// The kind of the queue.
    fn kind(slots: usize) -> Kind
        ensures { result ≡ (Self.layout slots).calls.kind };

    /// Where the table has the word.
    fn place(word: Word<usize>) -> usize
        requires has { (slots : ℕ) × (slots ≤ Self.most) × (Self.layout slots).HasWord word }
        ensures { (slots : ℕ) → result ≡ (Self.layout slots).place word };

    /// The steps are those of the kind.
    ghost steps_fit: { (slots : ℕ) → Self.Steps.has_kind (Self.layout slots).calls.kind };

    /// Each step of a call is right, wherever the call stands.
    ghost laws: { (slots : ℕ) → Self.least ≤ slots → slots ≤ Self.most → TableLaws (Self.layout slots) (Self.words slots) };
}

/// The rule of the table: what its words and slots are to the one history.
pub struct RuleOf<K> {
    of: PhantomData<K>,
}

impl<T, K: TableKind<T>> TableRule<Option<T>, CallState<T>, usize> for RuleOf<K> {
    ghost use Rattle.std.specs.Prelude.{[]};
    ghost use Rattle.shared_parties.specs.Calling.{cap_of};
    ghost use Rattle.shared_tables.specs.TableRule.{Rule};
    ghost use Rattle.shared_parties.specs.CallStates.{idle};
    ghost use Rattle.shared_parties.specs.Known.{party};
    ghost use Rattle.queue_steps.specs.Shares.{entire};

    ghost holds = { λ slots. Rule (K.layout slots) };

    ghost first = { λ slots. idle (party (cap_of (K.layout slots).calls) [] [] entire) };
}

/// One step of a call.
struct Steps<K, J> {
    on: PhantomData<K>,
    of: PhantomData<J>,
}

impl<T, K: TableKind<T>, J: CallTag<T>> Play<Option<T>, CallState<T>> for Steps<K, J> {
    ghost use Rattle.shared_tables.specs.TableTurns.{Follows};

    ghost then = { λ st m n q. Follows (K.layout st.slots) J.call n q };
}

/// A queue of this kind that parties share.
#[derive(Drop)]
pub struct SharedTable<T, K: Sizes + TableKind<T>, A: Allocator> {
    /// The words and the slots.
    pub table: Table<Option<T>, CallState<T>, usize, RuleOf<K>, A>,
    /// How many slots there are.
    pub slots: usize,
    ghost counted: { slots ≡ table.shared.table_id.slots },
    ghost counts: { 0 < table.shared.table_id.words },
    ghost sized: { (table.shared.table_id.words ≡ K.words table.shared.table_id.slots) × (table.shared.key ≡ table.shared.table_id.slots) × (K.least ≤ table.shared.table_id.slots) × (table.shared.table_id.slots ≤ K.most) },
}

impl<T, K: TableSteps<T>, A: Allocator> SharedTable<T, K, A> {
    /// The number of slots.
    pub fn slots(&self) -> usize
        ensures { result ≡ self.now.table.shared.table_id.slots }
    {
        self.slots
    }
}

/// The operation of a step, whose slot was touched. Of which call it is the caller says, by its kind and by where it waits.
#[inline(always)]
fn operate<T, K: TableSteps<T>, J: CallTag<T>>(
    table: &Shared<Option<T>, CallState<T>, usize, RuleOf<K>>,
    seat: &mut Seat<Option<T>, CallState<T>>,
    call: &CallKind,
    local: &Local<usize>,
    touched: Touch,
    op: Op<usize>,
    left: &Option<T>,
) -> Answer<usize>
    requires table { seat.old.table_id ≡ table.now.table_id }
    requires sized { (table.now.table_id.words ≡ K.words table.now.table_id.slots) × (table.now.key ≡ table.now.table_id.slots) × (K.least ≤ table.now.table_id.slots) × (table.now.table_id.slots ≤ K.most) }
    requires ready { Ready (K.layout table.now.table_id.slots).calls seat.old.me.0 J.call × (seat.old.me.1 ≡ touched_list J.call.touch J.call.carried J.call.lends) }
    requires op { (J.call.op ≡ op) × InTable (K.layout table.now.table_id.slots) op }
    ensures same { (seat.new.table_id ≡ seat.old.table_id) × (seat.new.id ≡ seat.old.id) }
    ensures did { (n : _) × (result ≡ answer_for op n) × Follows (K.layout table.now.table_id.slots) J.call n seat.new.me }
{
    let _ = call;
    let _ = local;
    let _ = touched;
    let _ = left;
    match op {
        Op::Load(word) => Answer::Found(load::<_, _, Steps<K, J>>(table, seat, K::place(word))),
        Op::Store(word, new) => {
            store::<_, _, Steps<K, J>>(table, seat, K::place(word), new);
            Answer::Done
        }
        Op::Add(word, by) => {
            Answer::Found(fetch_add::<_, _, Steps<K, J>>(table, seat, K::place(word), by))
        }
        Op::Or(word, bits) => {
            Answer::Found(fetch_or::<_, _, Steps<K, J>>(table, seat, K::place(word), bits))
        }
        // The bits that go are all in the word, so one instruction subtracts them.
        Op::And(word, bits) => {
            Answer::Found(fetch_sub::<_, _, Steps<K, J>>(table, seat, K::place(word), !bits))
        }
        Op::Exchange(word, old, new) => Answer::Found(compare_exchange::<_, _, Steps<K, J>>(
            table,
            seat,
            K::place(word),
            old,
            new,
        )),
        _ => unreachable!(),
    }
}

impl<T, K: TableSteps<T>, A: Allocator> Site for SharedTable<T, K, A> {
    type Shared = SharedTable<T, K, A>;

    type Item = T;

    type Block = usize;

    type Seat = Seat<Option<T>, CallState<T>>;

    type Steps = K::Steps;

    ghost use Rattle.shared_tables.specs.AtTable.{IsAt};
    ghost use Rattle.shared_parties.specs.Calling.{cap_of};
    ghost use Rattle.shared_tables.specs.TableTurns.{TableCan, TableDoes, NoBlock, NoGift, TableStands, TableEnded};
    ghost use Rattle.shared_tables.specs.Laws.TableLeads.{site_begins, site_goes_on};

    ghost kind_of = { λ m _. (K.layout m.table.shared.table_id.slots).calls.kind };

    ghost rests = { λ m s. IsAt (cap_of (K.layout m.table.shared.table_id.slots).calls) m.table.shared.table_id (s.table_id, s.me) };

    ghost can = { λ m s k l u o x. TableCan K.layout m.table.shared.table_id (s.table_id, s.me) k l u o x };

    ghost does = { λ m s k l u o x a q y. TableDoes K.layout m.table.shared.table_id (s.table_id, s.me) k l u o x a (q.table_id, q.me) y };

    ghost spares = { λ m s b. NoBlock m.table.shared.table_id (s.table_id, s.me) b };

    ghost gives = { λ m s b q. NoGift m.table.shared.table_id (s.table_id, s.me) b (q.table_id, q.me) };

    ghost stands = { λ n m s c l a q x. TableStands K.layout n m.table.shared.table_id (s.table_id, s.me) c l a (q.table_id, q.me) x };

    ghost ended = { λ m s c r q. TableEnded K.layout m.table.shared.table_id (s.table_id, s.me) c r (q.table_id, q.me) };

    ghost steps_fit = { λ m _. K.steps_fit m.table.shared.table_id.slots };

    ghost begins = { site_begins K.layout (λ m. m.table.shared.table_id) (λ s. (s.table_id, s.me)) (λ m. K.words m.table.shared.table_id.slots) (λ m. K.laws m.table.shared.table_id.slots m.sized.2 m.sized.3) };

    ghost goes_on = { site_goes_on K.layout (λ m. m.table.shared.table_id) (λ s. (s.table_id, s.me)) };

    ghost more = { λ n m first c l a s x h. h };

    #[inline(always)]
    fn kind(queue: &SharedTable<T, K, A>, _seat: &Seat<Option<T>, CallState<T>>) -> Kind {
        K::kind(queue.slots)
    }

    #[inline(always)]
    fn take_step(
        queue: &SharedTable<T, K, A>,
        seat: &mut Seat<Option<T>, CallState<T>>,
        call: &CallKind,
        local: &Local<usize>,
        todo: Touch,
        op: Op<usize>,
        carried: &mut Option<T>,
    ) -> Answer<usize>
        requires may { TableCan K.layout queue.now.table.shared.table_id (seat.old.table_id, seat.old.me) call.now local.now todo op carried.old }
        ensures { TableDoes K.layout queue.now.table.shared.table_id (seat.old.table_id, seat.old.me) call.now local.now todo op carried.old result (seat.new.table_id, seat.new.me) carried.new }
    {
        touch(&queue.table.shared, seat, todo, carried);
        operate::<T, K, Brand>(&queue.table.shared, seat, call, local, todo, op, carried)
    }

    /// No reply has a block, so nothing is done.
    fn give_up(queue: &SharedTable<T, K, A>, seat: &mut Seat<Option<T>, CallState<T>>, block: usize)
        ensures { NoGift queue.now.table.shared.table_id (seat.old.table_id, seat.old.me) block (seat.new.table_id, seat.new.me) }
    {
        let _ = queue;
        let _ = seat;
        let _ = block;
    }
}

impl<T, K: TableSteps<T>, A: Allocator> SharedSite for SharedTable<T, K, A> {
    ghost wait_free = { λ m _ c h. (K.laws m.table.shared.table_id.slots m.sized.2 m.sized.3).wait_free c h };
}
