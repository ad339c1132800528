//! The parser of the program's command line and of the lines of a batch.
//!
//! # Guarantees
//!
//! - `read_words` (`ok`), `read_line` (`ok`), `task_of` (`ok`), `words_of` (`ok`): a command line states an order only
//!   if the parser accepts it. Each value is that of the argument with its name.
//! - `read_words` (`err`), `read_line` (`err`): it states none only for an error of the parser, for words that do not
//!   go together (the clause lists them), or without memory.
//! - `batch_of`, `round_robin_of`, `line_of` (`ok`, `err`): the same for batches, round robins and each line of a
//!   batch.
//! - `Order::set_record` (`task`, `file`, `now`, `explains`): a record or a key that was read is put into its order,
//!   and the rest stays.
#![tactic(auto)]

pub mod batches;
mod building;
mod hosts;
pub mod inputs;
mod parser;
pub mod words;

pub use batches::{Batch, BatchOptions, BatchOrder, RoundRobin, read_line};
pub use inputs::{give_text, strip_line_end};
pub use words::{BadWords, Invocation, Order, ServeOptions, Task, read_words};
