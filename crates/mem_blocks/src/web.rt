// Blocks under a rule, and the seats from which threads reach them.
ghost use Rattle.std.specs.Prelude.{◌≡◌, ℕ, Bool, true, false, None};
ghost use denote.RawPtr.{Ptr};
ghost use Rattle.mem_blocks.specs.Web.{State, Sitter, Step, sitter, sitter_coded};
ghost use Rattle.mem_blocks.specs.Laid.{WebId, seat_owns, rested_owns, web_owns, web_shares};

use std::alloc::Allocator;
use std::marker::{Model, PhantomData};

/// The rule of a web: S is what a slot holds, V what a seat knows, and K what the web is given once, when it is made.
pub trait WebRule<S, V, K> {
    ghost holds: { K → State S V → Type 0 };

    /// The view of the first seat.
    ghost first: { K → V };
}

/// What the caller of a step on a word learns.
pub trait Play<S, V> {
    /// It speaks of the step, of the seat before and after it, and of the number between them: what the word was, or what a `store` wrote.
    ghost then: { Step → Sitter S V → ℕ → Sitter S V → Type 0 };
}

/// What the caller of a step on a link learns.
pub trait LinkPlay<S, V> {
    /// It speaks of the seat before and after the step, and of the place between them: what the link was, or what a `lead` wrote.
    ghost then: { Sitter S V → Ptr → Sitter S V → Type 0 };
}

/// Blocks that threads share under the rule `P`. It has no bytes. Its blocks are of the allocator `heap`.
pub struct Web<S, V, K, P: WebRule<S, V, K>, A: Allocator> {
    // A value goes in through a `&`, so the type may not vary with its parameters, and `*mut` keeps it from that.
    pub(crate) marker: PhantomData<*mut (S, V, K, P, A)>,
    pub ghost id: { WebId },
    pub ghost key: { K },
    pub ghost heap: { A },
}

impl<S, V, K, P: WebRule<S, V, K>, A: Allocator> Model for Web<S, V, K, P, A> {
    ghost also_owns = { λ w. web_owns S.row (A.dealloc_token w.heap) V.row.coded.code w.id (P.holds w.key) };

    ghost also_shares = { λ w _ κ. web_shares S.row (A.dealloc_token w.heap) V.row.coded.code w.id (P.holds w.key) κ };
}

/// A view of a web, with at most one slot in hand and at most one block that it carries. It has no bytes.
pub struct Seat<S, V, A: Allocator> {
    pub(crate) marker: PhantomData<(S, V, A)>,
    pub ghost web: { WebId },
    pub ghost heap: { A },
    pub ghost id: { ℕ },
    pub ghost sitter: { Sitter S V } by { sitter_coded S.code V.code },
}

impl<S, V, A: Allocator> Model for Seat<S, V, A> {
    ghost also_owns = { λ s. seat_owns S.row (A.dealloc_token s.heap) V.row.coded.code s.web s.id s.sitter };
}

/// The view of a seat that has nothing in hand and carries nothing. It names no allocator, and has no bytes. Once its
/// seat was taken out it is awake, and has no view.
pub struct Rested<V> {
    pub(crate) marker: PhantomData<V>,
    pub ghost web: { WebId },
    pub ghost id: { ℕ },
    pub ghost asleep: { Bool },
    pub ghost view: { V } by { V.code },
}

impl<V> Model for Rested<V> {
    ghost also_owns = { λ r. rested_owns V.row.coded.code r.web r.id r.asleep r.view };
}

impl<V> Rested<V> {
    /// A seat with the view.
    #[inline(always)]
    pub fn wakes<S, K, P: WebRule<S, V, K>, A: Allocator>(
        mut self,
        web: &Web<S, V, K, P, A>,
    ) -> Seat<S, V, A>
        requires { self.asleep ≡ true }
        ensures { (result.web ≡ self.web) × (result.heap ≡ web.now.heap) × (result.id ≡ self.id) × (result.sitter ≡ sitter self.view None None) }
    {
        self.take(web)
    }

    /// Takes the seat out, until `*self = seat.rests()` puts it back.
    #[inline(always)]
    pub fn take<S, K, P: WebRule<S, V, K>, A: Allocator>(
        &mut self,
        web: &Web<S, V, K, P, A>,
    ) -> Seat<S, V, A>
        requires { self.old.asleep ≡ true }
        ensures seat { (result.web ≡ self.old.web) × (result.heap ≡ web.now.heap) × (result.id ≡ self.old.id) × (result.sitter ≡ sitter self.old.view None None) }
        ensures left { self.new.asleep ≡ false }
    {
        let _ = web;
        Seat {
            marker: PhantomData,
        }
    }
}

// Its view stays among the views.
impl<V> Drop for Rested<V> {
    fn drop(self) {
        let Self { marker: _ } = self;
    }
}

unsafe impl<S: Send, V, A: Allocator + Send> Send for Seat<S, V, A> {}

unsafe impl<S: Send, V, K, P: WebRule<S, V, K>, A: Allocator + Send> Send for Web<S, V, K, P, A> {}

unsafe impl<S: Send, V, K, P: WebRule<S, V, K>, A: Allocator + Send> Sync for Web<S, V, K, P, A> {}

unsafe impl<V> Send for Rested<V> {}

unsafe impl<V> Sync for Rested<V> {}
