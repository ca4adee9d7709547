//! Tokens and numbers, of text and of binary files, as they are read and as they are written.
#![tactic(auto)]

mod binary;
mod front;
mod lexeme;
mod next;
mod text;
mod value;
mod write;

pub use binary::binary_item;
pub use front::{TextNumber, text_number};
pub use next::{misplaced, next_token};
pub use sr_model::{Token, Word};
pub use text::text_item;
pub use value::{Value, short_value};
pub use write::{put_end, put_literal, put_literals, put_number, put_number_text};
