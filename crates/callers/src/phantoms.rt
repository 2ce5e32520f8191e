//! Calls that the contracts of a shared queue do not allow its only party. Each function is there for its contract alone.
ghost use Rattle.std.specs.Prelude.{◌≡◌, [], Err, Some, ℕ};
ghost use Rattle.queue_steps.specs.declared.errors.PopError.TheVariants as pop_error;
ghost use Rattle.queue_steps.specs.declared.errors.PushError.TheVariants as push_error;
ghost use Rattle.queue_steps.specs.declared.model.Call.TheVariants as call;
ghost use Rattle.queue_steps.specs.declared.model.Reply.TheVariants as reply;
ghost use Rattle.concurrent_queue.specs.Shared.{Calls, PartyView, QueueName};
ghost use Rattle.callers.specs.Openers.{opener};

/// An empty open slot is not full for its only party.
pub fn empty_slot_is_not_full()
    ensures { (n : QueueName) (w : PartyView ℕ) (x y : ℕ) → Calls (opener n (Some 1)) (call.Push x) (reply.Push (Err (push_error.Full y))) w → ⊥ }
{}

/// A pop of its only party that finds it empty adds nothing to what the party has seen.
pub fn empty_slot_stays_as_it_is()
    ensures { (n : QueueName) (w : PartyView ℕ) → Calls (opener n (Some 1)) call.Pop (reply.Pop (Err pop_error.Empty)) w → w.view.seen ≡ [] }
{}
