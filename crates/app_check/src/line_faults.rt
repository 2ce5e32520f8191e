//! Why a line of a history cannot be read.
ghost use Rattle.std.specs.Prelude.{◌≡◌, Some};
ghost use Rattle.app_check.specs.LineFaults.{line_fault_text, replies_text};

use app_text::calls::ShownCall;
use queue_steps::model::Call;
use std::fmt;

/// Why a line is no event that may come there.
#[derive(Clone, Copy)]
pub enum LineFault {
    /// It does not begin with a party and a space.
    Party,
    /// Its party is in no call, and no call is behind it.
    Call,
    /// Its party is in no call, and a reply is behind it.
    NoCall,
    /// Its party is in a call, and no reply is behind it.
    InCall,
    /// Its party is in this call, which has no such reply.
    Reply(Call<u64>),
    /// It ends with a blank, or with a carriage return.
    Blank,
}

impl fmt::Display for LineFault {
    ghost output = { λ why. Some (line_fault_text why) };

    fn fmt<W: fmt::Write>(&self, f: &mut fmt::Formatter<W>) -> fmt::Result {
        match self {
            LineFault::Party => f.write_str("party: 0 to 4095, then one space"),
            LineFault::Call => f.write_str(
                "call: push N, force N, pop, close, is_closed, is_empty, is_full, len or capacity; N is 0 to 18446744073709551615",
            ),
            LineFault::NoCall => f.write_str("reply: the party is in no call"),
            LineFault::InCall => f.write_str("call: the party is in one, which = and a reply end"),
            LineFault::Reply(call) => {
                write!(f, "reply of {}: {}", ShownCall(*call), replies(*call))
            }
            LineFault::Blank => f.write_str("end: a blank or a carriage return"),
        }
    }
}

// The replies that the call may have, as a reader is told of them.
fn replies(call: Call<u64>) -> &'static str
    ensures { result.now ≡ replies_text call }
{
    match call {
        Call::Push(_) => "ok, full N, closed N or no memory N",
        Call::ForcePush(_) => "ok, displaced N, closed N or no memory N",
        Call::Pop => "item N, empty or closed",
        Call::Close | Call::IsClosed | Call::IsEmpty | Call::IsFull => "true or false",
        Call::Len => "N",
        Call::Capacity => "N or none",
    }
}
