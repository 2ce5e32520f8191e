//! How outcomes are printed.
ghost use Rattle.std.specs.Prelude.{◌≡◌, ◌++◌, OnOk, string_bytes};
ghost use Rattle.app_explore.specs.Outcomes.{lead_text, outcome_line, outcome_text, replies_text, text_of};
ghost use Rattle.app_explore.specs.Tails.{figure_tail, tail_line};

use crate::listed::Told;
use crate::tails::write_tail;
use app_text::items::write_items;
use app_text::replies::ReplyText;
use machine_explore::search::figures::Figure;
use machine_explore::sequence::Sequence;
use machine_explore::shown::ShownOutcome;
use queue_steps::model::Reply;
use std::alloc::{AllocError, Allocator};

/// Appends the text of an outcome, by which outcomes are kept apart and sorted: the replies of each party, and the items that are left.
pub fn write_outcome<A: Allocator, B: Allocator>(
    replies: &[Sequence<Reply<u64>, A>],
    left: &[u64],
    text: &mut String<B>,
) -> Result<(), AllocError>
    ensures { OnOk result (string_bytes text.new ≡ string_bytes text.old ++ outcome_text replies.now left.now) }
{
    for (party, made) in replies.iter().enumerate() {
        write!(text, "{party}:")?;
        write_replies(made.as_slice(), text)?;
        text.push_str(" | ")?;
    }
    text.push_str("left")?;
    write_items(left, text)
}

impl<A: Allocator> Told for ShownOutcome<A> {
    ghost text_of = { λ shown. text_of shown.outcome };

    fn write_to<B: Allocator>(&self, text: &mut String<B>) -> Result<(), AllocError> {
        write_outcome(self.outcome.replies(), self.outcome.left(), text)
    }
}

/// Appends the line of an outcome: its number, counted from 1, its text, and what was counted of it.
pub fn write_outcome_line<A: Allocator, B: Allocator>(
    number: u64,
    outcome: &str,
    figure: &Figure<A>,
    text: &mut String<B>,
) -> Result<(), AllocError>
    ensures { OnOk result (string_bytes text.new ≡ string_bytes text.old ++ outcome_line number outcome.now (tail_line (figure_tail figure.now))) }
{
    write!(text, "outcome {number} | {outcome}")?;
    write_tail(figure, text)?;
    text.push_str("\n")
}

// Appends the replies of a party, each behind a space, with a semicolon between each two.
fn write_replies<B: Allocator>(
    replies: &[Reply<u64>],
    text: &mut String<B>,
) -> Result<(), AllocError>
    ensures { OnOk result (string_bytes text.new ≡ string_bytes text.old ++ replies_text replies.now) }
{
    for (index, reply) in replies.iter().enumerate() {
        write!(text, "{}{}", lead(index), ReplyText(*reply))?;
    }
    Ok(())
}

// What stands before the reply at this place.
fn lead(index: usize) -> &'static str
    ensures { result.now ≡ lead_text index }
{
    if index == 0 { " " } else { "; " }
}
