//! What a step of a call is made of, and which step follows.
pub use queue_steps::steps::{
    Answer, CLOSED, CallView, ChainLocal, DESTROY, Kind, LOCKED, Link, Local, Look, MARK, Next, Op,
    PUSHED, PushKind, READ, RingLocal, SlotLocal, TAIL_STEP, Touch, UNLOCKED, UNPUSHED, WRITE,
    Word, next, start,
};
