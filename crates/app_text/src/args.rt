//! The arguments of the program.
ghost use Rattle.std.specs.Prelude.{◌≡◌, ◌<◌, [], ◌∷◌, map, string_bytes};
ghost use Rattle.std.specs.Option.{IfSome};
ghost use Rattle.std.specs.Fmt.{decimal};
ghost use Rattle.app_text.specs.Reading.{IsReading};
ghost use Rattle.machine_replay.specs.Conforms.{capacity_of as capacity_of_kind};
ghost use Rattle.machine_replay.specs.Replays.{CanReplay};
ghost use Rattle.app_text.specs.KindNames.{capacity_of, kind_text, queue_named, IsCapacity, IsKindName, mode_words, IsMode, IsPartyCount};

use crate::load::{Load, parse_even_load, parse_load};
use crate::numbers::parse_number;
use queue_steps::steps::Kind;

/// The most parties that a replay may have.
pub const MOST_PARTIES: u64 = 64;

const _: () = prove!(MOST_PARTIES == 64);

/// The kind of a queue, as an argument names it.
#[derive(Clone, Copy, Debug, PartialEq)]
pub enum KindName {
    Single,
    /// With this capacity, which is above 0. The capacity 1 is `Single`.
    Bounded(usize),
    Unbounded,
}

impl KindName {
    /// The queue of this kind: with a capacity of 1 it is one slot.
    pub fn kind(self) -> Kind
        requires { IsKindName self }
        ensures kind { result ≡ queue_named self }
        ensures has { capacity_of_kind result ≡ capacity_of self }
        ensures can { CanReplay result }
    {
        match self {
            KindName::Single | KindName::Bounded(1) => Kind::Single,
            KindName::Bounded(cap) => Kind::Bounded(cap),
            KindName::Unbounded => Kind::Unbounded,
        }
    }

    /// The capacity of a queue of this kind, if it has one.
    pub fn capacity(self) -> Option<usize>
        ensures capacity { result ≡ capacity_of self }
        ensures some { IsKindName self → IfSome result (λ cap. 0 < cap) }
    {
        match self {
            KindName::Single => Some(1),
            KindName::Bounded(cap) => Some(cap),
            KindName::Unbounded => None,
        }
    }
}

/// What the program is to do.
#[derive(Clone, Copy)]
pub enum Mode {
    /// Runs a script on a queue with one owner.
    Script(KindName),
    /// Replays calls and steps on a queue that so many parties share.
    Replay(KindName, usize),
    /// Lets threads push and pop on a queue that they share, and counts what comes.
    Threads(Load),
    /// Lets two threads hand an item to each other.
    Handshake,
    /// Lets threads send and receive through a channel, and counts what comes.
    Channel(Load),
}

/// The mode that the arguments name, if they name one.
pub fn parse_mode(args: &[String]) -> Option<Mode>
    ensures { IsReading IsMode mode_words (map string_bytes args.now) result }
{
    match args {
        [mode] => handshake_mode(mode.as_str()),
        [mode, kind] => script_mode(mode.as_str(), kind.as_str()),
        [mode, kind, parties] => replay_mode(mode.as_str(), kind.as_str(), parties.as_str()),
        [mode, kind, pushers, poppers, items] => load_mode(
            mode.as_str(),
            kind.as_str(),
            pushers.as_str(),
            poppers.as_str(),
            items.as_str(),
        ),
        _ => None,
    }
}

// The mode that this word names.
fn handshake_mode(mode: &str) -> Option<Mode>
    ensures { IsReading IsMode mode_words (mode.now ∷ []) result }
{
    match mode {
        "handshake" => Some(Mode::Handshake),
        _ => None,
    }
}

// The mode that these two words name.
fn script_mode(mode: &str, kind: &str) -> Option<Mode>
    ensures { IsReading IsMode mode_words (mode.now ∷ kind.now ∷ []) result }
{
    match mode {
        "script" => Some(Mode::Script(parse_kind(kind)?)),
        _ => None,
    }
}

// The mode that these three words name.
fn replay_mode(mode: &str, kind: &str, parties: &str) -> Option<Mode>
    ensures { IsReading IsMode mode_words (mode.now ∷ kind.now ∷ parties.now ∷ []) result }
{
    match mode {
        "replay" => Some(Mode::Replay(parse_kind(kind)?, parse_parties(parties)?)),
        _ => None,
    }
}

// The number of parties that this text names.
fn parse_parties(text: &str) -> Option<usize>
    ensures { IsReading IsPartyCount decimal text.now result }
{
    let count = parse_number(text.as_bytes())?;
    if count == 0 || count > MOST_PARTIES {
        return None;
    }
    Some(count as usize)
}

// The mode that these five words name.
fn load_mode(mode: &str, kind: &str, pushers: &str, poppers: &str, items: &str) -> Option<Mode>
    ensures { IsReading IsMode mode_words (mode.now ∷ kind.now ∷ pushers.now ∷ poppers.now ∷ items.now ∷ []) result }
{
    match mode {
        "threads" => Some(Mode::Threads(parse_even_load(kind, pushers, poppers, items)?)),
        "channel" => Some(Mode::Channel(parse_load(kind, pushers, poppers, items)?)),
        _ => None,
    }
}

/// The kind that this text names, if it names one.
pub fn parse_kind(text: &str) -> Option<KindName>
    ensures { IsReading IsKindName kind_text text.now result }
{
    match text {
        "single" => Some(KindName::Single),
        "unbounded" => Some(KindName::Unbounded),
        _ => {
            let digits = text.as_bytes().strip_prefix(b"bounded:".as_slice())?;
            Some(KindName::Bounded(parse_capacity(digits)?))
        }
    }
}

// The capacity that these digits name.
fn parse_capacity(digits: &[u8]) -> Option<usize>
    ensures { IsReading IsCapacity decimal digits.now result }
{
    let cap = parse_number(digits)?;
    if cap == 0 {
        return None;
    }
    Some(cap as usize)
}
