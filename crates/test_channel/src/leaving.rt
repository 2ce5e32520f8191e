//! The ways in which an end comes to be dropped.
use crate::host::Host;
use std::alloc::AllocError;
use std::io;
use std::thread::Builder;

/// How an end comes to be dropped.
#[derive(Clone, Copy, Debug)]
pub(crate) enum Way {
    Drop,
    Return,
    Question,
    RefusedStart,
}

/// How an end may be dropped.
pub(crate) static WAYS: [Way; 4] = [Way::Drop, Way::Return, Way::Question, Way::RefusedStart];

/// More bytes than a stack can have.
const STACK: usize = 1 << 50;

/// Fails, with an end in hand.
fn refuse<E: Drop>(end: E) -> Result<(), AllocError> {
    let refused: Result<(), AllocError> = Err(AllocError);
    refused?;
    drop(end);
    Ok(())
}

/// Gives an end to a thread that cannot be started.
fn hand_on<R: Host, E: Send + Drop + 'static>(rt: &R, end: E) -> io::Result<()> {
    Builder::new()
        .stack_size(STACK)
        .spawn(rt, move || drop(end))?;
    Ok(())
}

/// Has an end dropped. Gives whether it was in this way.
pub(crate) fn let_go<R: Host, E: Send + Drop + 'static>(rt: &R, way: Way, end: E) -> bool {
    match way {
        Way::Drop => {
            drop(end);
            true
        }
        Way::Return => {
            let _end = end;
            true
        }
        Way::Question => refuse(end).is_err(),
        Way::RefusedStart => hand_on(rt, end).is_err(),
    }
}
