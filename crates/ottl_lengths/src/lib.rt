//! How long the piece at the front of a condition's text is (OTTL's lexer, `grammar.go`): 0 where there is none of its kind.
#![tactic(auto)]

mod lengths;

pub use lengths::{
    behind, byte_at, bytes_len, digits_len, float_len, front, int_len, quote_at, sign_len,
    skip_blank, word_len,
};
