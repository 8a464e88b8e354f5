//! A subproblem, and how it branches.

ghost use Rattle.std.specs.Prelude.{◌≡◌, ◌<◌, ◌≤◌, ℕ, not, true, length, IfOk, MatchOption, slice_index_or};
ghost use Rattle.sf_node.specs.Full.{first_wide_from};
ghost use Rattle.std.specs.List.{list_all};
ghost use Rattle.sf_node.specs.Subproblem.{is_wide};
ghost use Rattle.sf_node.specs.Children.{is_unused, may_join};

use crate::step::Step;
use sf_model::Design;
use sf_polish::{Token, ends_in};
use std::alloc::{AllocError as NoMemory, Global};
use std::marker::Model;

/// A subproblem: the steps that lead to it, its tokens, and the span of each block's shapes.
#[derive(Drop)]
pub struct Node {
    steps: Vec<Step>,
    tokens: Vec<Token>,
    spans: Vec<(u16, u16)>,
}

impl Model for Node {
    ghost use Rattle.sf_node.specs.Parts.{Parts};

    ghost Value = { Parts };

    ghost view = { λ n. record { steps = n.steps.items; tokens = n.tokens.items; spans = n.spans.items } };
}

/// Whether a span has more than one place.
fn is_wide(span: (u16, u16)) -> bool
    ensures { result ≡ is_wide span }
{
    u32::from(span.0) + 1 < u32::from(span.1)
}

/// The place of the first span with more than one place.
fn first_wide(spans: &[(u16, u16)]) -> Option<u16>
    requires { length spans.now ≤ 320 }
    ensures { MatchOption result (first_wide_from 0 spans.now ≡ length spans.now)
        (λ block. (block ≡ first_wide_from 0 spans.now) × (block < length spans.now)
        × (is_wide (slice_index_or spans.now block (0, 0)) ≡ true)) }
{
    for (block, span) in spans.iter().enumerate() {
        if is_wide(*span) {
            return Some(block as u16);
        }
    }
    None
}

/// Whether each span has one place.
fn all_single(spans: &[(u16, u16)]) -> bool
    ensures { result ≡ list_all (λ span. not (is_wide span)) spans.now }
{
    spans.iter().all(|span| !is_wide(*span))
}

/// For each block by number, whether it is among the tokens: one pass over them.
pub fn used_blocks(alloc: Global, blocks: usize, tokens: &[Token]) -> Result<Vec<bool>, NoMemory>
    ensures each { IfOk result (λ used. length used.items ≡ blocks) }
    ensures used { IfOk result (λ used. (b : ℕ) → b < blocks
        → slice_index_or used.items b true ≡ not (is_unused b tokens.now)) }
{
    let mut used = Vec::from_elem(alloc, false, blocks)?;
    for token in tokens {
        if let Token::Block(block) = token {
            if let Some(flag) = used.get_mut(usize::from(*block)) {
                *flag = true;
            }
        }
    }
    Ok(used)
}

/// A copy with room for so many more items, and no more.
fn copy_with_room<T: Copy>(alloc: Global, items: &[T], more: usize) -> Result<Vec<T>, NoMemory>
    ensures { IfOk result (λ copy. copy.items ≡ items.now) }
{
    let mut copy = Vec::with_capacity(alloc, items.len().saturating_add(more))?;
    copy.extend_from_slice(items)?;
    Ok(copy)
}

/// Whether an operator may come next.
fn may_join(operator: Token, tokens: &[Token]) -> bool
    ensures { result ≡ may_join operator tokens.now }
{
    let operands = tokens.iter().filter(|token| token.is_operand()).count();
    let operators = tokens.iter().filter(|token| !token.is_operand()).count();
    operators + 2 <= operands && !ends_in(operator, tokens)
}

impl Node {
    ghost use Rattle.std.specs.Prelude.{◌+◌, map, ◌++◌, ◌∷◌, [], OnOk};
    ghost use Rattle.sf_node.specs.Parts.{Parts};
    ghost use Rattle.sf_node.specs.Later.{halved, HalvesOne};
    ghost use Rattle.sf_node.specs.Subproblem.{root, span_of, is_complete, is_solved};
    ghost use Rattle.sf_node.specs.Children.{split, extended, after, step_of, when, may_join, can_split};
    ghost use Rattle.sf_node.specs.Children.{CanSplit, CanStep, with_token, with_span, IsSubproblem};

    /// The subproblem of all plans.
    pub fn root(alloc: Global, design: &Design) -> Result<Node, NoMemory>
        ensures { IfOk result (λ n. n ≡ root design.now) }
    {
        let mut spans = Vec::new(alloc);
        for block in design.blocks.as_slice() {
            spans.push((0, block.shapes.as_slice().len() as u16))?;
        }
        Ok(Node {
            steps: Vec::new(alloc),
            tokens: Vec::new(alloc),
            spans,
        })
    }

    /// The first block whose span has more than one place.
    pub fn first_wide(&self) -> Option<u16>
        requires { length self.now.spans ≤ 320 }
        ensures { MatchOption result (first_wide_from 0 self.now.spans ≡ length self.now.spans)
            (λ block. (block ≡ first_wide_from 0 self.now.spans) × CanSplit self.now block) }
    {
        first_wide(&self.spans)
    }

    /// Whether the block is one of the design, and its span has more than one place.
    pub fn can_split(&self, block: u16) -> bool
        ensures { result ≡ can_split self.now block }
    {
        usize::from(block) < self.spans.len() && is_wide(self.spans[usize::from(block)])
    }

    /// The steps from the root.
    pub fn steps(&self) -> &[Step]
        ensures { result.now ≡ self.now.steps }
    {
        &self.steps
    }

    /// Where the lists of the subproblem are.
    pub fn allocator(&self) -> Global {
        *self.steps.allocator()
    }

    /// The tokens with which the expressions of its plans begin.
    pub fn tokens(&self) -> &[Token]
        ensures { result.now ≡ self.now.tokens }
    {
        &self.tokens
    }

    /// The span of each block, by number.
    pub fn spans(&self) -> &[(u16, u16)]
        ensures { result.now ≡ self.now.spans }
    {
        &self.spans
    }

    /// The span of a block: the first place of its shapes, and the one behind the last.
    pub fn span(&self, block: u16) -> (u16, u16)
        requires { block < length self.now.spans }
        ensures { result ≡ span_of self.now block }
    {
        self.spans[block as usize]
    }

    /// Whether all tokens are there: one fewer than twice the blocks.
    pub fn is_complete(&self) -> bool
        ensures { result ≡ is_complete self.now }
    {
        self.tokens.len() + 1 == 2 * self.spans.len()
    }

    /// Whether one plan is left, or the least area decides.
    pub fn is_solved(&self, design: &Design) -> bool
        ensures { result ≡ is_solved design.now self.now }
    {
        self.is_complete() && (design.weights.wire == 0 || all_single(&self.spans))
    }

    /// The same subproblem again.
    pub fn copy(&self) -> Result<Node, NoMemory>
        ensures { IfOk result (λ n. n ≡ self.now) }
    {
        Ok(Node {
            steps: self.steps.clone()?,
            tokens: self.tokens.clone()?,
            spans: self.spans.clone()?,
        })
    }

    /// The subproblem with one more token.
    fn with_token(&self, step: Step, token: Token) -> Result<Node, NoMemory>
        ensures { IfOk result (λ n. n ≡ with_token self.now step token) }
    {
        let mut child = self.grown(1)?;
        child.steps.push(step)?;
        child.tokens.push(token)?;
        Ok(child)
    }

    /// The subproblem with another span of a block.
    fn with_span(&self, step: Step, block: u16, span: (u16, u16)) -> Result<Node, NoMemory>
        requires { block < length self.now.spans }
        ensures { IfOk result (λ n. n ≡ with_span self.now step block span) }
    {
        let mut child = self.grown(0)?;
        child.steps.push(step)?;
        child.spans[block as usize] = span;
        Ok(child)
    }

    /// A copy with room for one more step and for more tokens.
    fn grown(&self, tokens: usize) -> Result<Node, NoMemory>
        ensures { IfOk result (λ n. n ≡ self.now) }
    {
        let alloc = self.allocator();
        Ok(Node {
            steps: copy_with_room(alloc, &self.steps, 1)?,
            tokens: copy_with_room(alloc, &self.tokens, tokens)?,
            spans: self.spans.clone()?,
        })
    }

    /// The two halves of a block's span.
    pub fn split_children(&self, design: &Design, block: u16) -> Result<(Node, Node), NoMemory>
        requires { CanSplit self.now block }
        ensures { IfOk result (λ halves. halves.0 ∷ halves.1 ∷ [] ≡ split self.now block) }
    {
        let (from, to) = self.span(block);
        let middle = from.midpoint(to);
        let left = self.with_span(Step::Left(block), block, (from, middle))?;
        let right = self.with_span(Step::Right(block), block, (middle, to))?;
        Ok((left, right))
    }

    /// The children with one more token, in order.
    pub fn extend_children(&self, design: &Design) -> Result<Vec<Node>, NoMemory>
        requires { IsSubproblem design.now self.now }
        ensures { IfOk result (λ children. children.items ≡ extended self.now) }
    {
        let blocks = design.block_count();
        let most = usize::from(blocks).saturating_sub(self.tokens.len() / 2) + 2;
        let mut children = Vec::with_capacity(self.allocator(), most)?;
        self.push_join(&mut children, Step::Beside, Token::Beside)?;
        self.push_join(&mut children, Step::Above, Token::Above)?;
        let used = used_blocks(self.allocator(), usize::from(blocks), &self.tokens)?;
        for block in 0..blocks {
            if !used[block as usize] {
                children.push(self.with_token(Step::Block(block), Token::Block(block))?)?;
            }
        }
        Ok(children)
    }

    /// Goes one step on.
    pub fn enter(&mut self, step: Step) -> Result<(), NoMemory>
        requires { CanStep self.old step }
        ensures { OnOk result (self.new ≡ after self.old step) }
    {
        self.steps.push(step)?;
        match step {
            Step::Beside => self.tokens.push(Token::Beside)?,
            Step::Above => self.tokens.push(Token::Above)?,
            Step::Block(block) => self.tokens.push(Token::Block(block))?,
            Step::Left(block) => {
                let (from, to) = self.span(block);
                self.spans[block as usize] = (from, from.midpoint(to));
            }
            Step::Right(block) => {
                let (from, to) = self.span(block);
                self.spans[block as usize] = (from.midpoint(to), to);
            }
        }
        Ok(())
    }

    /// Goes back over the last step, where it halved this span.
    pub fn leave(&mut self, step: Step, span: (u16, u16))
        requires { HalvesOne self.old step }
        ensures { (before : Parts) → self.old ≡ after before step → span ≡ halved before step
            → self.new ≡ before }
    {
        self.steps.pop();
        match step {
            Step::Beside | Step::Above | Step::Block(_) => {
                self.tokens.pop();
            }
            Step::Left(block) => self.spans[block as usize] = span,
            Step::Right(block) => self.spans[block as usize] = span,
        }
    }

    /// Adds the child by an operator, where it may come next.
    fn push_join(
        &self,
        children: &mut Vec<Node>,
        step: Step,
        operator: Token,
    ) -> Result<(), NoMemory>
        requires { with_token self.now step operator ≡ after self.now (step_of operator) }
        ensures { IfOk result (λ _. children.new.items
            ≡ children.old.items
            ++ map (λ t. after self.now (step_of t)) (when (may_join operator self.now.tokens) operator)) }
    {
        if may_join(operator, &self.tokens) {
            children.push(self.with_token(step, operator)?)?;
        }
        Ok(())
    }
}
