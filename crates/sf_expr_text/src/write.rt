//! The text of an expression.

ghost use Rattle.std.specs.Prelude.{◌≡◌, ◌++◌, ◌∷◌, length, IfOk, OnOk, IsFalse, string_bytes};
ghost use Rattle.sf_polish.specs.Normal.{is_outside, IsNormal};
ghost use Rattle.std.specs.Fmt.{decimal};
ghost use Rattle.sf_expr_text.specs.Text.{shape_text, shaped_text, expr_text};

use sf_model::Shape;
use sf_polish::{Expr, Token};
use std::alloc::{AllocError as NoMemory, Global};

/// The text of a normal expression: `*` and `+` for the operators, `i:wxh` for a block and its
/// shape, and one space between two words.
pub fn write_expr(alloc: Global, expr: &Expr) -> Result<Vec<u8>, NoMemory>
    requires normal { IsNormal (length expr.now.shapes) expr.now.tokens }
    ensures text { IfOk result (λ bytes. bytes.items ≡ expr_text expr.now) }
{
    let mut text = String::new(alloc);
    push_expr(&mut text, expr)?;
    Ok(text.into_bytes())
}

/// The same text behind another one, for writers of longer texts.
pub fn push_expr(text: &mut String, expr: &Expr) -> Result<(), NoMemory>
    requires normal { IsNormal (length expr.now.shapes) expr.now.tokens }
    ensures text { OnOk result (string_bytes text.new ≡ string_bytes text.old ++ expr_text expr.now) }
{
    let shapes = expr.shapes.as_slice();
    for (place, token) in expr.tokens.as_slice().iter().enumerate() {
        if place > 0 {
            text.push(' ')?;
        }
        push_token(text, *token, shapes)?;
    }
    Ok(())
}

/// Adds the word of a token.
fn push_token(text: &mut String, token: Token, shapes: &[Shape]) -> Result<(), NoMemory>
    requires { IsFalse (is_outside (length shapes.now) token) }
    ensures { OnOk result (string_bytes text.new ≡ string_bytes text.old ++ shaped_text shapes.now token) }
{
    match token {
        Token::Beside => text.push('*'),
        Token::Above => text.push('+'),
        Token::Block(block) => push_block(text, block, shapes[block as usize]),
    }
}

/// Adds a block and its shape.
fn push_block(text: &mut String, block: u16, shape: Shape) -> Result<(), NoMemory>
    ensures { OnOk result (string_bytes text.new
        ≡ string_bytes text.old ++ (decimal block ++ (58 ∷ shape_text shape))) }
{
    let w = shape.w;
    let h = shape.h;
    write!(text, "{block}:{w}x{h}")
}
