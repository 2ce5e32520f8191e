//! What a step of a call is made of, which step follows, and a run of the machine.
pub use concurrent_queue::steps::{
    Answer, CLOSED, CallView, ChainLocal, DESTROY, Kind, LOCKED, Link, Local, Look, MARK, Next, Op,
    PUSHED, PushKind, READ, RingLocal, SlotLocal, TAIL_STEP, Touch, UNLOCKED, UNPUSHED, WRITE,
    Word, next, start,
};
pub use machine_memory::types::{EffectKind, Event, Peak, Replay};
pub use machine_replay::replay;
