//! One node that is changed in place, and the way that leads to it.

ghost use Rattle.std.specs.Prelude.{◌≡◌};
ghost use Rattle.sf_node.specs.Children.{CanStep};
ghost use Rattle.sf_node.specs.Later.{halved};
ghost use Rattle.sf_cursor.specs.Path.{NamesOne, flags_after, step_blocks};

use crate::level::Level;
use sf_certificate::Tag;
use sf_model::Design;
use sf_node::{Node, Step, Values};
use sf_polish::{Token, ends_in};
use std::alloc::{AllocError as NoMemory, Global};
use std::marker::Model;

/// The subproblem that is next, the levels of the way to it, which blocks are there, and how many they are.
/// No cursor keeps more levels than the longest way of a design has steps, whatever came before.
#[derive(Drop)]
pub struct Cursor {
    node: Node,
    levels: Vec<Level>,
    used: Vec<bool>,
    operands: usize,
}

impl Model for Cursor {
    ghost use Rattle.std.specs.Prelude.{◌≤◌, length};
    ghost use Rattle.sf_cursor.specs.Path.{Path, most_steps};

    ghost Value = { Path };

    ghost view = { λ c. record {
      node = c.node;
      levels = c.levels.items;
      used = c.used.items;
      operands = c.operands;
    } };

    ghost invariant = { λ c. length c.levels.items ≤ most_steps };
}

/// The span that a step halves, or none.
fn halved(node: &Node, step: Step) -> (u16, u16)
    requires { CanStep node.now step }
    ensures { result ≡ halved node.now step }
{
    match step {
        Step::Left(block) | Step::Right(block) => node.span(block),
        Step::Beside | Step::Above | Step::Block(_) => (0, 0),
    }
}

/// Flags a block that the step names.
fn mark(used: &mut Vec<bool>, step: Step, flag: bool)
    requires { NamesOne step used.old.items }
    ensures { used.new.items ≡ flags_after used.old.items step flag }
{
    if let Step::Block(block) = step {
        used[block as usize] = flag;
    }
}

/// How many blocks a step names.
fn step_blocks(step: Step) -> usize
    ensures { result ≡ step_blocks step }
{
    match step {
        Step::Block(_) => 1,
        Step::Beside | Step::Above | Step::Left(_) | Step::Right(_) => 0,
    }
}

impl Cursor {
    ghost use Rattle.std.specs.Prelude.{[], ◌∷◌, ◌++◌, ◌≤◌, length, true};
    ghost use Rattle.std.specs.Prelude.{IfOk, IfSome, OnOk, MatchOption};
    ghost use Rattle.sf_node.specs.Subproblem.{root};
    ghost use Rattle.sf_node.specs.Children.{after, extended, may_join};
    ghost use Rattle.sf_node.specs.Later.{behind, pending, later, extending, blocks_from, IsChildOf};
    ghost use Rattle.sf_certificate.specs.Marks.{made, MaySplit};
    ghost use Rattle.sf_cursor.specs.Path.{IsPath, IsBack, IsParted, beyond, waiting, most_steps};

    /// At the root, which is next before anything was visited.
    pub fn new<V: Values>(alloc: Global, design: &Design, values: &V) -> Result<Cursor, NoMemory>
        ensures at { IfOk result (λ c. IsPath design.now (V.value values.now design.now) c) }
        ensures root { IfOk result (λ c. c.node ≡ root design.now) }
    {
        Ok(Cursor {
            node: Node::root(alloc, design)?,
            levels: Vec::new(alloc),
            used: Vec::from_elem(alloc, false, usize::from(design.block_count()))?,
            operands: 0,
        })
    }

    /// The subproblem that is next.
    pub fn node(&self) -> &Node
        ensures { result.now ≡ self.now.node }
    {
        &self.node
    }

    /// The value of the subproblem one step before, if there is one and its value was told.
    pub fn parent_value<V: Values>(&self, design: &Design, values: &V) -> Option<u64>
        requires { IsPath design.now (V.value values.now design.now) self.now }
        ensures value { IfSome result
            (λ value. IsChildOf design.now (V.value values.now design.now) value self.now.node) }
        ensures few { length self.now.levels ≤ most_steps }
    {
        let level = *self.levels.last()?;
        level.value
    }

    /// Puts a tag down at the subproblem that is next: goes on to the first that the tag makes, or past the
    /// subproblem where it makes none. No subproblem is next where none is left. Whoever knows the
    /// subproblem's value may tell it, for those that the tag makes.
    pub fn follow<V: Values>(
        &mut self,
        design: &Design,
        values: &V,
        tag: Tag,
        value: Option<u64>,
    ) -> Result<bool, NoMemory>
        requires at { IsPath design.now (V.value values.now design.now) self.old }
        requires may { MaySplit tag self.old.node }
        requires value { IfSome value (λ value. value ≡ V.value values.now design.now self.old.node) }
        ensures at { IfOk result (λ more. IsPath design.now (V.value values.now design.now) self.new) }
        ensures next { IfOk result (λ more. pending design.now more self.new.node
            ≡ made tag self.old.node ++ behind (root design.now) self.old.node.steps) }
    {
        self.follow_to(design, values, tag, value, 0)
    }

    /// The same on a stretch, which ends where a way of `floor` steps would be left: of what waits behind the
    /// subproblem only what lies beyond those steps comes next.
    pub fn follow_to<V: Values>(
        &mut self,
        design: &Design,
        values: &V,
        tag: Tag,
        value: Option<u64>,
        floor: usize,
    ) -> Result<bool, NoMemory>
        requires at { IsPath design.now (V.value values.now design.now) self.old }
        requires may { MaySplit tag self.old.node }
        requires value { IfSome value (λ value. value ≡ V.value values.now design.now self.old.node) }
        requires above { floor ≤ length self.old.node.steps }
        ensures at { IfOk result (λ more. IsPath design.now (V.value values.now design.now) self.new) }
        ensures next { IfOk result (λ more. waiting design.now floor more self.new.node
            ≡ made tag self.old.node ++ beyond floor (root design.now) self.old.node.steps) }
        ensures whole { IfOk result (λ more. more ≡ true → pending design.now true self.new.node
            ≡ made tag self.old.node ++ behind (root design.now) self.old.node.steps) }
        ensures above { IfOk result (λ more. more ≡ true → floor ≤ length self.new.node.steps) }
    {
        match tag {
            Tag::Extend => self.extend(design, values, value, floor),
            Tag::Split(block) => {
                self.enter(design, values, Step::Left(block), value)?;
                Ok(true)
            }
            Tag::Closed(_) | Tag::Open => self.advance(design, values, floor),
        }
    }

    /// Goes one step on. Whoever knows the value of the subproblem before it may tell it.
    pub fn enter<V: Values>(
        &mut self,
        design: &Design,
        values: &V,
        step: Step,
        value: Option<u64>,
    ) -> Result<(), NoMemory>
        requires at { IsPath design.now (V.value values.now design.now) self.old }
        requires can { CanStep self.old.node step }
        requires value { IfSome value (λ value. value ≡ V.value values.now design.now self.old.node) }
        ensures at { OnOk result (IsPath design.now (V.value values.now design.now) self.new) }
        ensures node { OnOk result (self.new.node ≡ after self.old.node step) }
    {
        let span = halved(&self.node, step);
        self.levels.push(Level { value, span })?;
        self.node.enter(step)?;
        mark(&mut self.used, step, true);
        self.operands += step_blocks(step);
        Ok(())
    }

    /// Goes back over the last step, if there is one. The answer is that step, and the value of the
    /// subproblem before it, if it was told.
    pub fn leave<V: Values>(&mut self, design: &Design, values: &V) -> Option<(Step, Option<u64>)>
        requires at { IsPath design.now (V.value values.now design.now) self.old }
        ensures at { IsPath design.now (V.value values.now design.now) self.new }
        ensures back { MatchOption result (self.old.node.steps ≡ [])
            (λ last. IsBack design.now (V.value values.now design.now) self.old.node last.0 last.1 self.new) }
    {
        let step = *self.node.steps().last()?;
        let Some(level) = self.levels.pop() else {
            unreachable!()
        };
        self.node.leave(step, level.span);
        mark(&mut self.used, step, false);
        self.operands -= step_blocks(step);
        Some((step, level.value))
    }

    /// Whether the operator may come next.
    fn joins<V: Values>(&self, design: &Design, values: &V, operator: Token) -> bool
        requires { IsPath design.now (V.value values.now design.now) self.now }
        ensures { result ≡ may_join operator self.now.node.tokens }
    {
        let tokens = self.node.tokens();
        tokens.len() + 2 <= 2 * self.operands && !ends_in(operator, tokens)
    }

    /// The first of the steps by which the subproblem is extended.
    fn first_step<V: Values>(&self, design: &Design, values: &V) -> Option<Step>
        requires { IsPath design.now (V.value values.now design.now) self.now }
        ensures { MatchOption result (extending self.now.node ≡ [])
            (λ s. extending self.now.node ≡ s ∷ later self.now.node s) }
    {
        if self.joins(design, values, Token::Beside) {
            return Some(Step::Beside);
        }
        self.after_beside(design, values)
    }

    /// The step that comes next after this one.
    fn next_step<V: Values>(&self, design: &Design, values: &V, step: Step) -> Option<Step>
        requires at { IsPath design.now (V.value values.now design.now) self.now }
        requires can { CanStep self.now.node step }
        ensures { MatchOption result (later self.now.node step ≡ [])
            (λ s. later self.now.node step ≡ s ∷ later self.now.node s) }
    {
        match step {
            Step::Beside => self.after_beside(design, values),
            Step::Above => self.block_from(design, values, 0),
            Step::Block(block) => self.block_from(design, values, block + 1),
            Step::Left(block) => Some(Step::Right(block)),
            Step::Right(_) => None,
        }
    }

    /// The step that comes next after an operator Beside.
    fn after_beside<V: Values>(&self, design: &Design, values: &V) -> Option<Step>
        requires { IsPath design.now (V.value values.now design.now) self.now }
        ensures { MatchOption result (later self.now.node Step.Beside ≡ [])
            (λ s. later self.now.node Step.Beside ≡ s ∷ later self.now.node s) }
    {
        if self.joins(design, values, Token::Above) {
            return Some(Step::Above);
        }
        self.block_from(design, values, 0)
    }

    /// The first step by a block that isn't there yet, from this number on.
    fn block_from<V: Values>(&self, design: &Design, values: &V, from: u16) -> Option<Step>
        requires { IsPath design.now (V.value values.now design.now) self.now }
        ensures { MatchOption result (blocks_from self.now.node from ≡ [])
            (λ s. blocks_from self.now.node from ≡ s ∷ later self.now.node s) }
    {
        let blocks = self.used.len() as u16;
        for block in from..blocks {
            if !self.used[block as usize] {
                return Some(Step::Block(block));
            }
        }
        None
    }

    /// Goes back over the last step, where the way has more than `floor` steps.
    fn leave_to<V: Values>(
        &mut self,
        design: &Design,
        values: &V,
        floor: usize,
    ) -> Option<(Step, Option<u64>)>
        requires at { IsPath design.now (V.value values.now design.now) self.old }
        ensures at { IsPath design.now (V.value values.now design.now) self.new }
        ensures back { MatchOption result (length self.old.node.steps ≤ floor)
            (λ last. IsBack design.now (V.value values.now design.now) self.old.node last.0 last.1 self.new
            × (floor ≤ length self.new.node.steps)) }
    {
        if self.node.steps().len() <= floor {
            return None;
        }
        self.leave(design, values)
    }

    /// Goes on past the subproblem and all under it. No subproblem is next where none is beyond the floor.
    fn advance<V: Values>(
        &mut self,
        design: &Design,
        values: &V,
        floor: usize,
    ) -> Result<bool, NoMemory>
        requires at { IsPath design.now (V.value values.now design.now) self.old }
        ensures at { IfOk result (λ more. IsPath design.now (V.value values.now design.now) self.new) }
        ensures next { IfOk result (λ more. waiting design.now floor more self.new.node
            ≡ beyond floor (root design.now) self.old.node.steps) }
        ensures whole { IfOk result (λ more. more ≡ true → pending design.now true self.new.node
            ≡ behind (root design.now) self.old.node.steps) }
        ensures above { IfOk result (λ more. more ≡ true → floor ≤ length self.new.node.steps) }
    {
        while let Some((step, value)) = self.leave_to(design, values, floor) {
            if let Some(next) = self.next_step(design, values, step) {
                self.enter(design, values, next, value)?;
                return Ok(true);
            }
        }
        Ok(false)
    }

    /// Goes on to the first child by extending, or past the subproblem where it has none.
    fn extend<V: Values>(
        &mut self,
        design: &Design,
        values: &V,
        value: Option<u64>,
        floor: usize,
    ) -> Result<bool, NoMemory>
        requires at { IsPath design.now (V.value values.now design.now) self.old }
        requires value { IfSome value (λ value. value ≡ V.value values.now design.now self.old.node) }
        requires above { floor ≤ length self.old.node.steps }
        ensures at { IfOk result (λ more. IsPath design.now (V.value values.now design.now) self.new) }
        ensures next { IfOk result (λ more. waiting design.now floor more self.new.node
            ≡ extended self.old.node ++ beyond floor (root design.now) self.old.node.steps) }
        ensures whole { IfOk result (λ more. more ≡ true → pending design.now true self.new.node
            ≡ extended self.old.node ++ behind (root design.now) self.old.node.steps) }
        ensures above { IfOk result (λ more. more ≡ true → floor ≤ length self.new.node.steps) }
    {
        let Some(step) = self.first_step(design, values) else {
            return self.advance(design, values, floor);
        };
        self.enter(design, values, step, value)?;
        Ok(true)
    }

    /// The step that comes next after this one, on a level that is not below the floor.
    fn next_beyond<V: Values>(
        &self,
        design: &Design,
        values: &V,
        step: Step,
        floor: usize,
        level: usize,
    ) -> Option<Step>
        requires at { IsPath design.now (V.value values.now design.now) self.now }
        requires can { CanStep self.now.node step }
        ensures { MatchOption result (floor ≤ level → later self.now.node step ≡ [])
            (λ s. (floor ≤ level) × (later self.now.node step ≡ s ∷ later self.now.node s)) }
    {
        if level < floor {
            return None;
        }
        self.next_step(design, values, step)
    }

    /// Gives away what waits on the shallowest level of a stretch that has later siblings: a cursor at the
    /// first of them, for a stretch with the same floor, and how many steps the floor of this one has then.
    /// None where nothing but the subproblem at hand and what it makes waits.
    pub fn part_off<V: Values>(
        &self,
        alloc: Global,
        design: &Design,
        values: &V,
        floor: usize,
    ) -> Result<Option<(Cursor, usize)>, NoMemory>
        requires at { IsPath design.now (V.value values.now design.now) self.now }
        requires above { floor ≤ length self.now.node.steps }
        ensures { IfOk result
            (λ given. MatchOption given (beyond floor (root design.now) self.now.node.steps ≡ [])
            (λ part. IsParted design.now (V.value values.now design.now) floor self.now part.0 part.1)) }
    {
        let mut part = Cursor::new(alloc, design, values)?;
        let steps = self.node.steps();
        for level in 0..steps.len() {
            let step = steps[level];
            if let Some(next) = part.next_beyond(design, values, step, floor, level) {
                let value = match self.levels.get(level) {
                    Some(kept) => kept.value,
                    None => None,
                };
                part.enter(design, values, next, value)?;
                return Ok(Some((part, level + 1)));
            }
            part.enter(design, values, step, None)?;
        }
        Ok(None)
    }
}
