//! Expressions correspond to their texts.

ghost use Rattle.std.specs.Prelude.{◌≡◌, ◌<◌, ◌≤◌, ◌^◌, ◌++◌, ℕ, List, Ok};
ghost use Rattle.sf_polish.specs.declared.expr.Expr.{Expr};
ghost use Rattle.sf_polish.specs.declared.expr.Token.{Token};
ghost use Rattle.sf_polish.specs.Normal.{IsNormal};
ghost use Rattle.sf_expr_text.specs.Reading.{tokens_read, expr_read};
ghost use Rattle.sf_expr_text.specs.Refused.{IsFront};
ghost use Rattle.sf_expr_text.specs.Text.{expr_text, SpellsTokens, SpellsExpr};
ghost use Rattle.sf_polish.specs.Writable.{IsWritable};

/// A list of tokens is a front just where a normal expression of these blocks begins with it. So a refused
/// text stops at the first word, or at the end, where no normal expression goes on or ends.
pub fn normal_expressions_begin_with_fronts()
    ensures begun { (blocks : ℕ) (tokens rest : List Token) → IsNormal blocks (tokens ++ rest)
        → IsFront blocks tokens }
    ensures goes_on { (blocks : ℕ) (tokens : List Token) → 1 ≤ blocks → IsFront blocks tokens
        → (rest : List Token) × IsNormal blocks (tokens ++ rest) }
{}

/// A text is read just where its words spell a normal expression, and then as that expression. So what
/// `write_expr` writes is read again, and a text spells at most one expression.
pub fn texts_spell_expressions()
    ensures spelled { (blocks : ℕ) (text : List ℕ) (expr : Expr) → blocks < 2 ^ 16
        → expr_read blocks text ≡ Ok expr → SpellsExpr blocks text expr }
    ensures read { (blocks : ℕ) (text : List ℕ) (expr : Expr) → blocks < 2 ^ 16
        → SpellsExpr blocks text expr → expr_read blocks text ≡ Ok expr }
    ensures written { (blocks : ℕ) (expr : Expr) → blocks < 2 ^ 16
        → IsWritable blocks expr → expr_read blocks (expr_text expr) ≡ Ok expr }
{}

/// The same for a text of tokens without shapes.
pub fn texts_spell_tokens()
    ensures spelled { (blocks : ℕ) (text : List ℕ) (tokens : List Token) → blocks < 2 ^ 16
        → tokens_read blocks text ≡ Ok tokens → SpellsTokens blocks text tokens }
    ensures read { (blocks : ℕ) (text : List ℕ) (tokens : List Token) → blocks < 2 ^ 16
        → SpellsTokens blocks text tokens → tokens_read blocks text ≡ Ok tokens }
{}
