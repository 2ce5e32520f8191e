//! The machine's runs of queues, where no stored case shows them: want of memory, items that count their drops, words, and what is recorded.
pub mod events;
pub mod items;
pub mod recorded;
pub mod refusals;
pub mod words;
