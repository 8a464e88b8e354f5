//! The texts of normalised Polish expressions.
//!
//! The crate stands on `sf_polish` for expressions, and on `sf_lex` for the words and numbers of texts.
//! `write_expr` writes the one text of an expression, and `read_expr` reads a text just where its words spell a
//! normal expression, by the law `texts_spell_expressions`. Any other text is refused with its first fault: up to
//! there its words begin a normal expression, by the law `normal_expressions_begin_with_fronts`, and none goes on
//! with the word at hand, or ends here.
#![tactic(auto)]

mod fault;
mod laws;
mod read;
mod reading;
mod word;
mod write;

pub use fault::ExprFault;
pub use laws::{normal_expressions_begin_with_fronts, texts_spell_expressions, texts_spell_tokens};
pub use read::{read_expr, read_tokens};
pub use write::{push_expr, write_expr};
