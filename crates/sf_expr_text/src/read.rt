//! Expressions read from their texts.

ghost use Rattle.std.specs.Prelude.{◌≡◌, ◌⊎◌, ◌≤◌, Ok, length, IfOk, IfErr, IfSome, IsFalse};
ghost use Rattle.sf_expr_text.specs.declared.fault.ExprFault.TheVariants.{NoMemory};
ghost use Rattle.sf_polish.specs.Normal.{is_outside};
ghost use Rattle.sf_expr_text.specs.Reading.{tokens_read, expr_read, shapes_with, Fails};
ghost use Rattle.sf_expr_text.specs.Refused.{WritesToken, WritesShaped, GoesWrong};
ghost use Rattle.sf_expr_text.specs.Text.{SpellsTokens, SpellsExpr};
ghost use Rattle.sf_expr_text.specs.Word.{token_of};

use crate::fault::ExprFault;
use crate::reading::Reading;
use crate::word::{Piece, read_piece, read_token, token_of};
use sf_lex::Scan;
use sf_model::{Shape, Shapes};
use sf_polish::{Expr, Token, Tokens, without_shapes};
use std::alloc::Global;

/// The tokens of a text of block numbers, `*` and `+`, between blanks. Block numbers are below `blocks`.
pub fn read_tokens(alloc: Global, text: &[u8], blocks: u16) -> Result<Vec<Token>, ExprFault>
    ensures tokens { IfOk result (λ tokens. tokens_read blocks text.now ≡ Ok tokens.items) }
    ensures spelled { IfOk result (λ tokens. SpellsTokens blocks text.now tokens.items) }
    ensures refused { IfErr result (λ e. (e ≡ NoMemory) ⊎ GoesWrong WritesToken blocks text.now e) }
    ensures fault { IfErr result (λ e. Fails e (tokens_read blocks text.now)) }
{
    let mut reading = Reading::new(alloc, blocks)?;
    let mut scan = Scan::new(text);
    while let Some(word) = scan.next_word() {
        reading.take(read_token(word.text, blocks), word.line)?;
    }
    reading.finish(text)
}

/// The expression of a text as `write_expr` writes it, with any blanks between the words. Block numbers are
/// below `blocks`, and sides are whole units from 1 to 1,048,576.
pub fn read_expr(alloc: Global, text: &[u8], blocks: u16) -> Result<Expr, ExprFault>
    ensures expr { IfOk result (λ expr. expr_read blocks text.now ≡ Ok expr) }
    ensures spelled { IfOk result (λ expr. SpellsExpr blocks text.now expr) }
    ensures refused { IfErr result (λ e. (e ≡ NoMemory) ⊎ GoesWrong WritesShaped blocks text.now e) }
    ensures fault { IfErr result (λ e. Fails e (expr_read blocks text.now)) }
{
    let mut reading = Reading::new(alloc, blocks)?;
    let mut shapes = without_shapes(alloc, blocks)?;
    let mut scan = Scan::new(text);
    while let Some(word) = scan.next_word() {
        let piece = read_piece(word.text, blocks);
        reading.take(token_of(piece), word.line)?;
        keep_shape(&mut shapes, piece);
    }
    let tokens = reading.finish(text)?;
    Ok(Expr {
        tokens: Tokens::from_vec(tokens),
        shapes: Shapes::from_vec(shapes),
    })
}

/// Keeps a block's shape.
fn keep_shape(shapes: &mut Vec<Shape>, piece: Option<Piece>)
    requires { IfSome piece (λ p. IsFalse (is_outside (length shapes.old.items) (token_of p))) }
    ensures { shapes.new.items ≡ shapes_with shapes.old.items piece }
{
    if let Some(Piece::Block(block, shape)) = piece {
        shapes[block as usize] = shape;
    }
}
