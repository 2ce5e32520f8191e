//! A crew whose threads share the parties of a queue.
ghost use Rattle.std.specs.Prelude.{◌≡◌, ◌≤◌, ◌+◌, [], vec_capacity};
ghost use Rattle.queue_steps.specs.Parties.{IsView};
ghost use Rattle.queue_steps.specs.Shares.{SamePart, IsEntire};
ghost use Rattle.concurrent_queue.specs.Shared.{IsPartyOf, Parts};
ghost use Rattle.queue_crew.specs.Work.{IsKept};
ghost use Rattle.queue_crew.specs.Coming.{Came};

use crate::crew::{Crew, Parting};
use crate::refusal::OnRefusal;
use crate::shift::Shift;
use concurrent_queue::{ConcurrentQueue, Party};
use std::alloc::Allocator;
use std::sync::Wait;

/// A party, and the posts that were joined with it, the last thread's first.
#[derive(Drop)]
pub(crate) struct Hand<T, P> {
    pub(crate) party: Party<T>,
    pub(crate) posts: Vec<P>,
}

/// The party of a thread that has done its work, and what the thread brings.
#[derive(Drop)]
pub(crate) struct Brought<T, P> {
    party: Party<T>,
    post: P,
}

/// The work of a crew on a queue.
#[derive(Drop)]
pub(crate) struct OnQueue<'a, T, S, A: Allocator> {
    pub(crate) queue: &'a ConcurrentQueue<T, A>,
    pub(crate) shift: &'a S,
    pub(crate) threads: u64,
    pub(crate) on_refusal: OnRefusal,
}

/// Closes the queue where it is to be.
fn leave<T, A: Allocator>(
    queue: &ConcurrentQueue<T, A>,
    party: &mut Party<T>,
    on_refusal: OnRefusal,
    all_started: bool,
)
    requires { IsPartyOf party.old queue.now }
    ensures of { IsPartyOf party.new queue.now }
    ensures share { party.new.view.share ≡ party.old.view.share }
    ensures kept { IsKept on_refusal all_started party.old party.new }
{
    party.show_view();
    match (on_refusal, all_started) {
        (OnRefusal::CloseQueue, false) => {
            let _ = queue.close(party);
        }
        (OnRefusal::CloseQueue, true) | (OnRefusal::GoOn, _) => {}
    }
}

impl<'a, T: Send + Drop, A: Allocator + Send + Sync, S: Shift<T, A>> Crew for OnQueue<'a, T, S, A> {
    type Kept = Hand<T, S::Post>;

    type Given = Party<T>;

    type Back = Brought<T, S::Post>;

    type All = Hand<T, S::Post>;

    ghost can_part = { λ c k. IsPartyOf k.party c.queue.now × (k.posts.items ≡ []) × (c.threads ≤ vec_capacity k.posts) };

    ghost can_work = { λ c g. IsPartyOf g c.queue.now × (g.view.mine ≡ []) };

    ghost fits = { λ c n. n ≤ c.threads };

    ghost parted = { λ c w k g. IsView w.party.queue.cap w.party.view × Parts w.party k.party g };

    ghost worked = { λ c n g b. IsPartyOf b.party c.queue.now × SamePart b.party.view.share g.view.share × S.reports c.shift.now n b.party b.post };

    ghost came = { λ c n started made k all. Came (S.reports c.shift.now) c.queue.now c.on_refusal started n made k.party all.party all.posts.items × (c.threads ≤ vec_capacity all.posts) };

    ghost is_least = { λ c k. ¬ (IsEntire k.party.view.share) };

    fn part(
        &self,
        number: u64,
        kept: Hand<T, S::Post>,
    ) -> Result<(Hand<T, S::Post>, Party<T>), Hand<T, S::Post>> {
        let Hand { party, posts } = kept;
        party.show_view();
        match self.queue.split(party) {
            Ok((party, given)) => Ok((Hand { party, posts }, given)),
            Err(party) => Err(self.end(number, Hand { party, posts }, false)),
        }
    }

    fn work<R: Wait>(&self, rt: &R, number: u64, given: Party<T>) -> Brought<T, S::Post> {
        let mut party = given;
        let post = self.shift.work(rt, self.queue, number, &mut party);
        Brought { party, post }
    }

    fn end(&self, _number: u64, kept: Hand<T, S::Post>, all_started: bool) -> Hand<T, S::Post> {
        let Hand { mut party, posts } = kept;
        leave(self.queue, &mut party, self.on_refusal, all_started);
        Hand { party, posts }
    }

    fn join(
        &self,
        number: u64,
        all_started: bool,
        made: u64,
        parting: Parting<Hand<T, S::Post>, Party<T>>,
        all: Hand<T, S::Post>,
        back: Brought<T, S::Post>,
    ) -> Hand<T, S::Post>
        requires parted { IsView parting.whole.value.party.queue.cap parting.whole.value.party.view × Parts parting.whole.value.party parting.kept.value.party parting.given.value }
        requires came { Came (S.reports self.now.shift.now) self.now.queue.now self.now.on_refusal all_started (number + 1) made parting.kept.value.party all.party all.posts.items
            × (self.now.threads ≤ vec_capacity all.posts) }
        requires worked { IsPartyOf back.party self.now.queue.now × SamePart back.party.view.share parting.given.value.view.share × S.reports self.now.shift.now number back.party back.post }
        requires fits { made + 1 ≤ self.now.threads }
        ensures { Came (S.reports self.now.shift.now) self.now.queue.now self.now.on_refusal all_started number (made + 1) parting.whole.value.party result.party result.posts.items
            × (self.now.threads ≤ vec_capacity result.posts) }
    {
        let Hand { party, mut posts } = all;
        party.show_view();
        back.party.show_view();
        posts.push_reserved(back.post);
        Hand {
            party: self.queue.join(party, back.party),
            posts,
        }
    }
}
