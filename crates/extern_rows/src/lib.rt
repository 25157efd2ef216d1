//! Samples and events.
//! In: a text of comma-separated values in pieces of any size, and a list of the wanted columns. Out: its lines, the
//! columns of its header and the words of each row; and the line of an event.
//! specs/Feeding.antt, specs/FeedStanding.antt and specs/FeedTexts.antt say which line a feed holds (`Feed::push`),
//! specs/Columns.antt what a header and a row say (`Header::row`), specs/SampleRows.antt and specs/TextRows.antt the
//! rows of a whole text, specs/Events.antt the line of an event (`event_line`), and specs/ValueTexts.antt the text of a
//! value and of a log.
#![tactic(auto)]

mod blank;
mod event;
mod fault;
mod feed;
mod field;
mod header;
mod leaves;
mod record;
mod shape;
mod text_rows;

pub use blank::is_blank;
pub use event::{Piece, event_line};
pub use fault::RowFault;
pub use feed::{Feed, Pushed, feeds_take_texts, stands_in_texts};
pub use header::{Header, Leaf, rows_stand_in_lines};
pub use leaves::push_leaves;
pub use shape::{events_show_values, push_pieces};
pub use text_rows::{leaf_name, rows_stand_in_texts};

#[cfg(test)]
mod tests;
