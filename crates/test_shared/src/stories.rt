//! Stories of a queue's parties, as texts.
//!
//! The first line is the story's name and the kinds of queue that it is told of, each as `queue_run` names it: `NAME: KIND ..`. With `with:N` the items 1 to N are pushed before; with `refusing:N` the request for memory of this number is refused; with `uncounted` the memory is that of which there is one value, so that a pending call on a chain may be taken up.
//!
//! Then a line is what a party does and what it is answered: `A push 7 -> ok`. Calls and replies have the words of a script.
//!
//! - `A try CALL` never waits, and may answer `busy`.
//! - `A begin CALL`, `A resume` and `A give_up` are `pending` or have the reply of the call; one that is given up hands its value back, or is `too late`.
//! - `split` makes two parties of A, which are A and B; `meet` lets them meet; `join` makes one of them again; `drop` drops B, with its call.
//! - `count -> items N, allocations N` is what there is of both.
//!
//! After `hold A CALL at STEP -> REPLY` there are two parties, and A's call is held before this step of `docs/STEPS.md`. The lines behind it are B's: `B waits CALL` has its reply once the held call goes on, and from `go` on that has ended. With `once asked` the call begins when B has asked for a block, and B is granted that once the call is held, or has ended.
//!
//! The last line ends the sharing: `left 1..4 7 open`, or `shared` where it cannot end. Then there are no items and no allocations, or as many as are told behind it: `shared; items N, allocations N`.
pub mod held;
mod lines;
mod telling;
pub mod told;
mod words;
