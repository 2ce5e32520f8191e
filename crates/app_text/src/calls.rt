//! The calls that a script names, and how they are printed.
ghost use Rattle.std.specs.Prelude.{Some};
ghost use Rattle.app_text.specs.Calls.{call_text, IsCallOfWord, IsPlainCall};
ghost use Rattle.app_text.specs.Reading.{IsReading};

use crate::lines::Line;
use crate::numbers::parse_number;
use queue_steps::model::Call;
use std::{fmt, str};

impl Line for Call<u64> {
    ghost is_value = { IsCallOfWord };

    ghost text_of = { call_text };

    fn parse(line: &[u8]) -> Option<Call<u64>> {
        if let Some(digits) = line.strip_prefix(b"push ".as_slice()) {
            return Some(Call::Push(parse_number(digits)?));
        }
        if let Some(digits) = line.strip_prefix(b"force ".as_slice()) {
            return Some(Call::ForcePush(parse_number(digits)?));
        }
        plain_call(line)
    }
}

// The call without a number that has this text.
fn plain_call(line: &[u8]) -> Option<Call<u64>>
    ensures { IsReading IsPlainCall call_text line.now result }
{
    let Ok(text) = str::from_utf8(line) else {
        return None;
    };
    match text {
        "pop" => Some(Call::Pop),
        "close" => Some(Call::Close),
        "is_closed" => Some(Call::IsClosed),
        "is_empty" => Some(Call::IsEmpty),
        "is_full" => Some(Call::IsFull),
        "len" => Some(Call::Len),
        "capacity" => Some(Call::Capacity),
        _ => None,
    }
}

/// A call as it is printed.
#[derive(Clone, Copy)]
pub struct ShownCall(pub Call<u64>);

impl fmt::Display for ShownCall {
    ghost output = { λ shown. Some (call_text shown.0) };

    fn fmt<W: fmt::Write>(&self, f: &mut fmt::Formatter<W>) -> fmt::Result {
        match self.0 {
            Call::Push(value) => write!(f, "push {value}"),
            Call::ForcePush(value) => write!(f, "force {value}"),
            Call::Pop => f.write_str("pop"),
            Call::Close => f.write_str("close"),
            Call::IsClosed => f.write_str("is_closed"),
            Call::IsEmpty => f.write_str("is_empty"),
            Call::IsFull => f.write_str("is_full"),
            Call::Len => f.write_str("len"),
            Call::Capacity => f.write_str("capacity"),
        }
    }
}
