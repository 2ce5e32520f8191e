//! What a list of outcomes says of replays. The function is there for its contract alone.
ghost use Rattle.machine_explore.specs.Listed.{ReplaysAreListed};

use std::alloc::Allocator;

/// Where a program has no outcome but those of a list, a replay of one of its runs ends with one of them, if the allocator refused nothing.
pub fn replays_are_listed<A: Allocator>()
    ensures { ReplaysAreListed A }
{}
