//! What all parties share: the words, the slots and the blocks of a queue, and what one step of a call does to them.
ghost use Rattle.std.specs.Prelude.{◌≡◌, ◌<◌, None, IfOk, replicate, true, false};
ghost use Rattle.machine_memory.specs.Blocks.{without};
ghost use Rattle.machine_memory.specs.SharedMemory.{HasWord, word_at, put_word, HasLink, link_at, put_link, CanOperate, asked, granted_if, answered, operated, block_touched, slots_there, item_at, put_at, CanTouch, touched, handed, shared_of};
ghost use Rattle.machine_memory.specs.Opening.{slot_count, opening_shared, opening_stamps};
ghost use Rattle.machine_memory.specs.Room.{HasRoom, HasRoomFor, KeepsRoom, HasSameRoom, HasCount};
ghost use Rattle.queue_laws.specs.Ring.RingOpening.{numbers_below};

use crate::blocks::{self, Block};
use crate::same::{Same, all_same};
use queue_steps::steps::{Answer, Kind, Link, Op, Touch, Word};
use std::alloc::{AllocError, Allocator};
use std::hash::{Hash, Hasher};
use std::mem;

/// The words, the slots and the blocks of a queue.
#[derive(Drop)]
pub struct SharedMemory<T, A: Allocator> {
    /// The word of a queue of one slot.
    pub lock: u64,
    /// How far the poppers are.
    pub head: u64,
    /// How far the pushers are, and whether the queue is closed.
    pub tail: u64,
    /// The stamp of each slot of a ring.
    pub stamps: Vec<u64, A>,
    /// What each slot holds.
    pub slots: Vec<Option<T>, A>,
    /// The block of the poppers, by its number.
    pub head_block: Option<usize>,
    /// The block of the pushers, by its number.
    pub tail_block: Option<usize>,
    /// The blocks, by their numbers, in the order in which they were granted. A block that was given up is there no more.
    pub blocks: Vec<Option<Block<T, A>>, A>,
    /// How many of the blocks are there.
    pub alive: usize,
}

impl<T: Drop, A: Allocator + Copy> SharedMemory<T, A> {
    /// That of an empty open queue, with room for the numbers of the blocks of so many events.
    pub fn new(alloc: A, kind: Kind, events: usize) -> Result<Self, AllocError>
        ensures memory { IfOk result (λ m. shared_of m ≡ opening_shared kind) }
        ensures room { IfOk result (λ m. HasRoomFor m events) }
        ensures counted { IfOk result (λ m. HasCount m) }
    {
        Ok(SharedMemory {
            lock: 0,
            head: 0,
            tail: 0,
            stamps: numbered(alloc, stamps_of(kind))?,
            slots: vacant(alloc, slots_of(kind))?,
            head_block: None,
            tail_block: None,
            blocks: Vec::with_capacity(alloc, events)?,
            alive: 0,
        })
    }
}

impl<T: Copy, A: Allocator + Copy> SharedMemory<T, A> {
    /// A copy, with room for one block more.
    pub fn fork(&self, alloc: A) -> Result<Self, AllocError>
        ensures memory { IfOk result (λ m. shared_of m ≡ shared_of self.now) }
        ensures alive { IfOk result (λ m. m.alive ≡ self.now.alive) }
        ensures room { IfOk result (λ m. HasRoom m) }
    {
        Ok(SharedMemory {
            lock: self.lock,
            head: self.head,
            tail: self.tail,
            stamps: Vec::from_slice(alloc, &self.stamps)?,
            slots: Vec::from_slice(alloc, &self.slots)?,
            head_block: self.head_block,
            tail_block: self.tail_block,
            blocks: blocks::copy(alloc, &self.blocks)?,
            alive: self.alive,
        })
    }
}

impl<T: Same, A: Allocator> SharedMemory<T, A> {
    /// Whether the two hold the same. A no claims nothing.
    pub fn is_same(&self, other: &Self) -> bool
        ensures { result ≡ true → shared_of self.now ≡ shared_of other.now }
    {
        self.has_same_words(other)
            && all_same(&self.slots, &other.slots)
            && all_same(&self.blocks, &other.blocks)
    }

    /// Whether the words and the links of the two are the same. A no claims nothing.
    fn has_same_words(&self, other: &Self) -> bool
        ensures lock { result ≡ true → self.now.lock ≡ other.now.lock }
        ensures head { result ≡ true → self.now.head ≡ other.now.head }
        ensures tail { result ≡ true → self.now.tail ≡ other.now.tail }
        ensures head_block { result ≡ true → self.now.head_block ≡ other.now.head_block }
        ensures tail_block { result ≡ true → self.now.tail_block ≡ other.now.tail_block }
        ensures stamps { result ≡ true → self.now.stamps.items ≡ other.now.stamps.items }
    {
        self.lock == other.lock
            && self.head == other.head
            && self.tail == other.tail
            && self.head_block == other.head_block
            && self.tail_block == other.tail_block
            && all_same(&self.stamps, &other.stamps)
    }
}

impl<T: Hash, A: Allocator> SharedMemory<T, A> {
    /// Feeds the hasher with all that is shared.
    pub fn feed<H: Hasher>(&self, state: &mut H) {
        self.lock.hash(state);
        self.head.hash(state);
        self.tail.hash(state);
        self.head_block.hash(state);
        self.tail_block.hash(state);
        self.stamps.hash(state);
        self.slots.hash(state);
        blocks::feed(&self.blocks, state);
    }
}

impl<T, A: Allocator> SharedMemory<T, A> {
    /// The content of a word.
    fn load(&self, word: Word<usize>) -> u64
        requires { HasWord (shared_of self.now) word }
        ensures { result ≡ word_at (shared_of self.now) word }
    {
        match word {
            Word::Lock => self.lock,
            Word::Head => self.head,
            Word::Tail => self.tail,
            Word::Stamp(slot) => self.stamps[slot],
            Word::State(block, slot) => blocks::state(&self.blocks, block, slot),
        }
    }

    /// Writes a word.
    fn store(&mut self, word: Word<usize>, value: u64)
        requires can { HasWord (shared_of self.old) word }
        requires counted { HasCount self.old }
        ensures memory { shared_of self.new ≡ put_word (shared_of self.old) word value }
        ensures room { HasSameRoom self.old self.new }
        ensures counted { HasCount self.new }
    {
        match word {
            Word::Lock => self.lock = value,
            Word::Head => self.head = value,
            Word::Tail => self.tail = value,
            Word::Stamp(slot) => self.stamps[slot] = value,
            Word::State(block, slot) => blocks::set_state(&mut self.blocks, block, slot, value),
        }
    }

    /// The block in a link.
    fn follow(&self, link: Link<usize>) -> Option<usize>
        requires { HasLink (shared_of self.now) link }
        ensures { result ≡ link_at (shared_of self.now) link }
    {
        match link {
            Link::HeadBlock => self.head_block,
            Link::TailBlock => self.tail_block,
            Link::Next(block) => blocks::next(&self.blocks, block),
        }
    }

    /// Writes a link.
    fn lead(&mut self, link: Link<usize>, block: usize)
        requires can { HasLink (shared_of self.old) link }
        requires counted { HasCount self.old }
        ensures memory { shared_of self.new ≡ put_link (shared_of self.old) link block }
        ensures room { HasSameRoom self.old self.new }
        ensures counted { HasCount self.new }
    {
        match link {
            Link::HeadBlock => self.head_block = Some(block),
            Link::TailBlock => self.tail_block = Some(block),
            Link::Next(before) => blocks::set_next(&mut self.blocks, before, block),
        }
    }

    /// Asks for a block, unless it is refused from the start. Whether there is one is told beside the answer.
    fn ask(&mut self, alloc: A, granted: bool) -> (Answer<usize>, bool)
        requires room { HasRoom self.old }
        requires counted { HasCount self.old }
        ensures refused { granted ≡ false → result.1 ≡ false }
        ensures answer { result.0 ≡ asked result.1 (shared_of self.old) }
        ensures memory { shared_of self.new ≡ granted_if result.1 (shared_of self.old) }
        ensures room { KeepsRoom self.old self.new }
        ensures counted { HasCount self.new }
    {
        if !granted {
            return (Answer::Refused, false);
        }
        match Block::new(alloc) {
            Ok(block) => {
                let number = self.blocks.len();
                self.blocks.push_reserved(Some(block));
                self.alive += 1;
                (Answer::Granted(number), true)
            }
            Err(_) => (Answer::Refused, false),
        }
    }

    /// One atomic operation, or a request for a block. Whether that is granted is told beside the answer.
    pub fn perform(&mut self, alloc: A, op: Op<usize>, granted: bool) -> (Answer<usize>, bool)
        requires can { CanOperate (shared_of self.old) op }
        requires room { HasRoom self.old }
        requires counted { HasCount self.old }
        ensures refused { granted ≡ false → result.1 ≡ false }
        ensures answer { result.0 ≡ answered result.1 (shared_of self.old) op }
        ensures memory { shared_of self.new ≡ operated result.1 (shared_of self.old) op }
        ensures room { KeepsRoom self.old self.new }
        ensures counted { HasCount self.new }
    {
        let answer = match op {
            Op::Load(word) => Answer::Found(self.load(word)),
            Op::Store(word, value) => {
                self.store(word, value);
                Answer::Done
            }
            Op::Add(word, more) => {
                let found = self.load(word);
                self.store(word, found + more);
                Answer::Found(found)
            }
            Op::Or(word, bits) => {
                let found = self.load(word);
                self.store(word, found | bits);
                Answer::Found(found)
            }
            Op::And(word, bits) => {
                let found = self.load(word);
                self.store(word, found & bits);
                Answer::Found(found)
            }
            Op::Exchange(word, expected, value) => {
                let found = self.load(word);
                if found == expected {
                    self.store(word, value);
                }
                Answer::Found(found)
            }
            Op::LoadLink(link) => Answer::Linked(self.follow(link)),
            Op::StoreLink(link, block) => {
                self.lead(link, block);
                Answer::Done
            }
            Op::Install(block) => {
                let before = self.tail_block;
                if before.is_none() {
                    self.tail_block = Some(block);
                }
                Answer::Linked(before)
            }
            Op::Ask => return self.ask(alloc, granted),
        };
        (answer, granted)
    }

    /// The slot and the call exchange what they hold.
    pub fn touch(&mut self, touch: Touch, op: Op<usize>, carried: Option<T>) -> Option<T>
        requires can { CanTouch touch (slots_there (shared_of self.old) (block_touched op)) }
        requires counted { HasCount self.old }
        ensures memory { shared_of self.new ≡ touched touch (block_touched op) (shared_of self.old) carried }
        ensures carried { result ≡ handed touch (block_touched op) (shared_of self.old) carried }
        ensures room { HasSameRoom self.old self.new }
        ensures counted { HasCount self.new }
    {
        match touch {
            Touch::Nothing => carried,
            Touch::Put(slot) | Touch::Swap(slot) | Touch::Take(slot) => self.replace(
                named_block(op),
                slot,
                carried,
            ),
        }
    }

    /// A slot, of a queue with a capacity or of a block, holds this, and what it held is handed out.
    fn replace(&mut self, block: Option<usize>, slot: usize, item: Option<T>) -> Option<T>
        requires can { slot < slots_there (shared_of self.old) block }
        requires counted { HasCount self.old }
        ensures memory { shared_of self.new ≡ put_at (shared_of self.old) block slot item }
        ensures before { result ≡ item_at (shared_of self.old) block slot }
        ensures room { HasSameRoom self.old self.new }
        ensures counted { HasCount self.new }
    {
        match block {
            None => mem::replace(&mut self.slots[slot], item),
            Some(block) => blocks::replace(&mut self.blocks, block, slot, item),
        }
    }
}

impl<T: Drop, A: Allocator> SharedMemory<T, A> {
    /// Gives the block of this number up, if there is one to be given up.
    pub fn give_up(&mut self, block: Option<usize>)
        requires counted { HasCount self.old }
        ensures memory { shared_of self.new ≡ record (shared_of self.old) { blocks = without block self.old.blocks.items } }
        ensures room { HasSameRoom self.old self.new }
        ensures counted { HasCount self.new }
    {
        if blocks::give_up(&mut self.blocks, block) {
            self.alive -= 1;
        }
    }
}

/// The block whose slot a step with this operation touches, on a chain.
pub fn named_block(op: Op<usize>) -> Option<usize>
    ensures { result ≡ block_touched op }
{
    match op {
        Op::Load(Word::State(block, _)) => Some(block),
        Op::Or(Word::State(block, _), _) => Some(block),
        _ => None,
    }
}

/// The numbers below `count`, in their order.
fn numbered<A: Allocator>(alloc: A, count: usize) -> Result<Vec<u64, A>, AllocError>
    ensures { IfOk result (λ v. v.items ≡ numbers_below count) }
{
    let mut numbers = Vec::with_capacity(alloc, count)?;
    for number in 0..count {
        numbers.push_reserved(number as u64);
    }
    Ok(numbers)
}

/// So many places with nothing in them.
pub fn vacant<T, A: Allocator>(alloc: A, count: usize) -> Result<Vec<Option<T>, A>, AllocError>
    ensures { IfOk result (λ v. v.items ≡ replicate count None) }
{
    let mut places = Vec::with_capacity(alloc, count)?;
    for _ in 0..count {
        places.push_reserved(None);
    }
    Ok(places)
}

/// How many slots a queue of this kind has.
fn slots_of(kind: Kind) -> usize
    ensures { result ≡ slot_count kind }
{
    match kind {
        Kind::Single => 1,
        Kind::Bounded(cap) => cap,
        Kind::Unbounded => 0,
    }
}

/// How many stamps a queue of this kind has.
fn stamps_of(kind: Kind) -> usize
    ensures { numbers_below result ≡ opening_stamps kind }
{
    match kind {
        Kind::Bounded(cap) => cap,
        _ => 0,
    }
}
