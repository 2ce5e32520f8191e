//! What is asked of an allocator, and that all of it is given back.
ghost use Rattle.std.specs.Prelude.{◌≡◌, [], ◌∷◌, length};
ghost use denote.RawPtr.{InBlock};
ghost use Rattle.mem_blocks.specs.Seats.{Sits, Same};
ghost use Rattle.mem_blocks.specs.Web.{AllVacant, alive_at};

use crate::asserts::is;
use mem_blocks::block::{BlockPtr, Loose};
use mem_blocks::chain::Chain;
use mem_blocks::hub::Hub;
use mem_blocks::null_testable::NullTestable;
use mem_blocks::sizes::SLOTS;
use mem_blocks::web::{Seat, Web};
use std::alloc::{AllocError, Allocator, Global, Layout};
use std::process::Abort;
use test_support::allocators::{Heap, Refusal};
use test_support::closing;
use test_support::closing_rule::{ClosingRule, QueueEnds, View};

/// A slot that is too large for a block.
type Huge = [u8; 0x8000_0000];

/// The largest slot that a block may have.
type Largest = [u8; 0x7fff_ffff];

/// A slot of a megabyte.
type Large = [u8; 0x10_0000];

/// Whether the request for a block is refused. A block that is granted is given up.
fn refuses_block<S>(alloc: &&Heap) -> bool {
    match Loose::<S, &Heap>::make(alloc) {
        Ok((link, block)) => {
            block.give_up(alloc, link);
            false
        }
        Err(_) => true,
    }
}

/// Whether the request for both ends is refused. Ends that are granted are given up.
fn refuses_ends<S>(alloc: &&Heap) -> bool {
    match Hub::<S, &Heap>::make(alloc) {
        Ok((hub, link, tail, _, head)) => {
            hub.give_up(alloc, link, tail, head);
            false
        }
        Err(_) => true,
    }
}

/// Lays a block, writes a word and an item into it, and reads both. Gives them, and how many allocations live while the block lies there.
fn use_a_block<A: Allocator>(alloc: &A, heap: &Heap) -> Result<(u64, u8, u64), AllocError> {
    let (link, block) = Loose::<u8, A>::make(alloc)?;
    let mut chain = Chain::empty(alloc);
    chain.lay(block);
    chain.set_word(0, link, 3, 9);
    chain.put(0, link, 62, 7);
    let word = chain.word(0, link, 3);
    let item = chain.take(0, link, 62);
    let laid = heap.live();
    chain.lift(0, link).give_up(alloc, link);
    chain.leave();
    Ok((word, item, laid))
}

/// Asks whether a queue is closed and closes it, and again by a party that is parted off and taken back. Gives what was answered.
fn close_twice<A: Allocator>(
    queue: &Web<u8, View, QueueEnds<u8>, ClosingRule, A>,
    seat: &mut Seat<u8, View, A>,
    tail: BlockPtr<u8>,
) -> [bool; 4]
    requires { Sits seat.old queue.now × InBlock tail.ptr × (tail.ptr ≡ queue.now.key.tail.ptr) }
    ensures { Same seat.new seat.old }
{
    let before = closing::is_closed(queue, seat, tail);
    let first = closing::close(queue, seat, tail);
    let mut other = closing::part(queue, seat, tail);
    let second = closing::close(queue, &mut other, tail);
    let after = closing::is_closed(queue, &mut other, tail);
    closing::take_back(queue, seat, other, tail);
    [before, first, second, after]
}

#[test]
fn a_closed_queue_gives_its_memory_back(rt: HostRuntime) {
    let heap = Heap::new(rt.alloc(), Refusal::Never);
    let alloc = &heap;
    let (queue, mut seat, hub, tail, head) = closing::open::<u8, &Heap>(&alloc).expect(
        &rt, "memory",
    );
    let answers = close_twice(&queue, &mut seat, tail);
    let shared = heap.live();
    closing::end(queue, seat, hub, &alloc, tail, head);
    is(&rt, answers, [false, true, false, true]);
    is(&rt, [shared, heap.live(), heap.requests()], [1, 0, 1]);
}

/// Whether the request for a block of such slots, and that for both ends, are refused. What is granted is given up, the block before the ends are asked for. And how many allocations there were at most at one time, how many stay, and how many requests there were.
fn asked<S>(alloc: Global, refusal: Refusal) -> ([bool; 2], [u64; 3]) {
    let heap = Heap::new(alloc, refusal);
    let alloc = &heap;
    let refused = [refuses_block::<S>(&alloc), refuses_ends::<S>(&alloc)];
    (refused, [heap.most(), heap.live(), heap.requests()])
}

/// A block is one request, and so are both ends. Slots that are too large are refused without one, and those of fewer bytes are asked for.
#[test]
fn large_slots_are_asked_for(rt: HostRuntime) {
    let alloc = rt.alloc();
    let found = [
        asked::<u8>(alloc, Refusal::Never),
        asked::<u8>(alloc, Refusal::Always),
        asked::<Large>(alloc, Refusal::Always),
        asked::<Largest>(alloc, Refusal::Always),
        asked::<Huge>(alloc, Refusal::Never),
    ];
    let granted = ([false, false], [1, 0, 2]);
    let refused = ([true, true], [0, 0, 2]);
    let not_asked = ([true, true], [0, 0, 0]);
    is(&rt, found, [granted, refused, refused, refused, not_asked]);
}

/// Makes a block of such slots, which is of this layout, and gives it up. Gives how many allocations of the layout live while it is there, and how many of any; and the same afterwards.
fn counts_of<S>(rt: &impl Abort, alloc: Global, size: usize, align: usize) -> [u64; 4] {
    let layout = Layout::from_size_align(size, align).expect(rt, "a layout");
    let heap = Heap::watching(alloc, Refusal::Never, layout);
    let alloc = &heap;
    let (link, block) = Loose::<S, &Heap>::make(&alloc).expect(rt, "memory");
    let (watched, all) = (heap.live_watched(), heap.live());
    block.give_up(&alloc, link);
    [watched, all, heap.live_watched(), heap.live()]
}

/// A block of slots that are aligned more strictly than its words goes back with the size and the alignment that it was asked for with.
#[test]
fn a_block_goes_back_as_it_came(rt: HostRuntime) {
    let of_words = counts_of::<u64>(&rt, rt.alloc(), 1016, 8);
    let aligned = counts_of::<u128>(&rt, rt.alloc(), 1520, 16);
    is(&rt, [of_words, aligned], [[1, 1, 0, 0]; 2]);
}

/// Whether the link of a block leads anywhere.
fn leads<A: NullTestable>(rt: &impl Abort, alloc: &A) -> bool {
    let (link, block) = Loose::<u8, A>::make_testable(alloc).expect(rt, "memory");
    let leads = link.get().is_some();
    block.give_up(alloc, link);
    leads
}

/// The link of a block leads somewhere, also where its requests are counted; a null pointer leads nowhere.
#[test]
fn a_link_tells_whether_it_leads_anywhere(rt: HostRuntime) {
    let heap = Heap::new(rt.alloc(), Refusal::Never);
    let nowhere: BlockPtr<u8> = BlockPtr {
        ptr: std::ptr::null_mut(),
    };
    let found = [
        leads(&rt, &rt.alloc()),
        leads(&rt, &&heap),
        nowhere.get().is_some(),
    ];
    let counted = [heap.most(), heap.live(), heap.requests()];
    is(&rt, (found, counted), ([true, true, false], [1, 0, 1]));
}

/// Lays two blocks, and lifts, gives up and forgets the first.
fn leave_the_second<A: Allocator>(
    alloc: &A,
    first: BlockPtr<u8>,
    one: Loose<u8, A>,
    two: Loose<u8, A>,
) -> Chain<u8, A>
    requires one { (one.heap ≡ alloc.now) × (one.at ≡ first.ptr) × (length one.homes ≡ SLOTS) × AllVacant one.homes }
    requires two { two.heap ≡ alloc.now }
    ensures { (result.heap ≡ alloc.now) × (result.blocks ≡ alive_at two.at two.next two.words two.homes ∷ []) }
{
    let mut chain = Chain::empty(alloc);
    chain.lay(one);
    chain.lay(two);
    chain.lift(0, first).give_up(alloc, first);
    chain.forget();
    chain
}

/// Writes a word of the second of two blocks, which is number 0 once the first is forgotten. Gives the word, and how many allocations live while the block lies there.
fn use_the_second<A: Allocator>(alloc: &A, heap: &Heap) -> Result<(u64, u64), AllocError> {
    let (first, one) = Loose::<u8, A>::make(alloc)?;
    let Ok((second, two)) = Loose::<u8, A>::make(alloc) else {
        one.give_up(alloc, first);
        return Err(AllocError);
    };
    let mut chain = leave_the_second(alloc, first, one, two);
    chain.set_word(0, second, 3, 9);
    let word = chain.word(0, second, 3);
    let kept = heap.live();
    chain.lift(0, second).give_up(alloc, second);
    chain.leave();
    Ok((word, kept))
}

/// A chain keeps words, items and its block. The second of two blocks is the first, once the one before it is gone and forgotten.
#[test]
fn a_chain_keeps_and_forgets_blocks(rt: HostRuntime) {
    let heap = Heap::new(rt.alloc(), Refusal::Never);
    let kept = use_a_block(&&heap, &heap);
    let second = use_the_second(&&heap, &heap);
    let counted = (heap.live(), heap.requests());
    is(
        &rt,
        (kept, second, counted),
        (Ok((9, 7, 1)), Ok((9, 1)), (0, 3)),
    );
}
