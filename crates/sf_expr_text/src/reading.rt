//! The tokens of a text as they are read.

ghost use Rattle.std.specs.Prelude.{◌≡◌, ◌+◌, ◌<◌, ◌++◌, [], ◌∷◌, Ok, length, map, Some, IfOk, IfErr, IfSome};
ghost use Rattle.std.specs.Prelude.{OnOk, IsFalse};
ghost use Rattle.std.specs.List.{range_with_len, list_all};
ghost use Rattle.sf_lex.specs.Scan.{last_line_of};
ghost use Rattle.sf_polish.specs.declared.expr.Token.{Token};
ghost use Rattle.sf_polish.specs.declared.expr.Token.TheVariants.{Block};
ghost use Rattle.sf_polish.specs.Normal.{is_operand, operands, operators, is_outside};
ghost use Rattle.sf_expr_text.specs.Reading.{is_named, operator_after, token_after, whole_tokens, Fails};

use crate::fault::ExprFault;
use sf_lex::last_line;
use sf_polish::{Token, ends_in};
use std::alloc::{AllocError as NoMemory, Global};

/// The tokens so far.
#[derive(Drop)]
pub struct Reading {
    tokens: Vec<Token>,
    /// For each block whether it is among the tokens.
    named: Vec<bool>,
    /// How many more operands than operators there are.
    depth: usize,
    ghost flags: { named.items ≡ map (λ b. is_named b tokens.items) (range_with_len 0 (length named.items)) },
    ghost balance: { operands tokens.items ≡ operators tokens.items + depth },
}

/// Whether all flags are set.
fn are_all_set(flags: &[bool]) -> bool
    ensures { result ≡ list_all (λ b. b) flags.now }
{
    flags.iter().all(|flag| *flag)
}

impl Reading {
    /// No tokens yet.
    pub fn new(alloc: Global, blocks: u16) -> Result<Reading, NoMemory>
        ensures tokens { IfOk result (λ r. r.tokens.items ≡ []) }
        ensures blocks { IfOk result (λ r. length r.named.items ≡ blocks) }
    {
        Ok(Reading {
            tokens: Vec::new(alloc),
            named: vec![in alloc; false; blocks as usize]?,
            depth: 0,
        })
    }

    /// Takes what a word in a line spells, where it may stand behind the earlier tokens.
    pub fn take(&mut self, spelled: Option<Token>, line: u64) -> Result<(), ExprFault>
        requires { IfSome spelled (λ t. IsFalse (is_outside (length self.old.named.items) t)) }
        ensures token { OnOk result ((t : Token) × (token_after self.old.tokens.items line spelled ≡ Ok t)
            × (self.new.tokens.items ≡ self.old.tokens.items ++ t ∷ [])) }
        ensures fault { IfErr result (λ e. Fails e (token_after self.old.tokens.items line spelled)) }
        ensures same_blocks { length self.new.named.items ≡ length self.old.named.items }
    {
        match spelled {
            None => Err(ExprFault::BadToken(line)),
            Some(Token::Block(block)) => self.take_block(block, line),
            Some(Token::Beside) => self.take_operator(Token::Beside, line),
            Some(Token::Above) => self.take_operator(Token::Above, line),
        }
    }

    /// Takes a block, where it was not named before.
    fn take_block(&mut self, block: u16, line: u64) -> Result<(), ExprFault>
        requires { block < length self.old.named.items }
        ensures token { OnOk result ((token_after self.old.tokens.items line (Some (Block block))
            ≡ Ok (Block block))
            × (self.new.tokens.items ≡ self.old.tokens.items ++ Block block ∷ [])) }
        ensures fault { IfErr result (λ e. Fails e
            (token_after self.old.tokens.items line (Some (Block block)))) }
        ensures same_blocks { length self.new.named.items ≡ length self.old.named.items }
    {
        if self.named[block as usize] {
            return Err(ExprFault::RepeatedBlock(line));
        }
        self.tokens.push(Token::Block(block))?;
        self.named[block as usize] = true;
        self.depth += 1;
        Ok(())
    }

    /// Takes an operator, where two items wait for one and the last token is another.
    fn take_operator(&mut self, operator: Token, line: u64) -> Result<(), ExprFault>
        requires { IsFalse (is_operand operator) }
        ensures token { OnOk result ((operator_after self.old.tokens.items line operator ≡ Ok operator)
            × (self.new.tokens.items ≡ self.old.tokens.items ++ operator ∷ [])) }
        ensures fault { IfErr result (λ e. Fails e (operator_after self.old.tokens.items line operator)) }
        ensures same_blocks { length self.new.named.items ≡ length self.old.named.items }
    {
        if self.depth < 2 {
            return Err(ExprFault::NotBallot(line));
        }
        if ends_in(operator, &self.tokens) {
            return Err(ExprFault::NotNormal(line));
        }
        self.tokens.push(operator)?;
        self.depth -= 1;
        Ok(())
    }

    /// All tokens of the text, where none is missing.
    pub fn finish(self, text: &[u8]) -> Result<Vec<Token>, ExprFault>
        ensures tokens { IfOk result (λ tokens. whole_tokens (length self.named.items)
            (last_line_of text.now) self.tokens.items ≡ Ok tokens.items) }
        ensures fault { IfErr result (λ e. Fails e
            (whole_tokens (length self.named.items) (last_line_of text.now) self.tokens.items)) }
    {
        if !are_all_set(&self.named) {
            return Err(ExprFault::MissingBlock(last_line(text)));
        }
        if self.depth != 1 {
            return Err(ExprFault::NotBallot(last_line(text)));
        }
        Ok(self.tokens)
    }
}
