//! The lexer of Protocol Buffers texts (proto3): the text's bytes in, its list of tokens out.
//!
//! `lex` gives each text its one list of tokens: names, numbers, strings, symbols, and bad tokens for whatever is
//! none of them. Whitespace, comments and a byte order mark at the front stand between tokens. `first_offset` and
//! `next_token` give the same tokens one by one, without a list. What a text's tokens are is defined in
//! specs/Tokens.antt, and the laws beside `lex` tie that definition to the forms of tokens.
#![tactic(auto)]

mod bytes;
mod comment;
mod front;
mod identifier;
mod laws;
mod lexer;
mod next;
mod number;
mod scan;
mod string;
mod token;

pub use identifier::is_identifier;
pub use laws::{
    cut_tokens, number_forms, one_token_list, ordered_tokens, single_characters, token_forms,
};
pub use lexer::lex;
pub use next::{first_offset, next_token};
pub use token::{Kind, Reason, Token};
