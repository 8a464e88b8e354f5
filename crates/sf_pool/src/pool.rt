//! The machine: open and held tasks, entries, and the incumbent cost.

ghost use Rattle.std.specs.Prelude.{◌≡◌, ◌++◌, ◌<◌, ◌≤◌, ◌+◌, ℕ, List, Err, length, reverse, map};
ghost use Rattle.std.specs.Prelude.{MatchOption, MatchResult, IfOk, replicate, None, Some, true, vec_len};
ghost use Rattle.sf_node.specs.declared.task.Task.{Task};
ghost use Rattle.std.specs.Vec.{vec_capacity};
ghost use Rattle.sf_node.specs.Children.{IsSubproblem};
ghost use Rattle.sf_search_core.specs.Conserved.{branched};
ghost use Rattle.sf_search_core.specs.Events.{kind_of, may_branch, tasks};

use sf_model::{Design, MAX};
use sf_node::{Node, Task, Values};
use sf_search_core::{Costs, Entry, Event, How, Kind, Refusal};
use std::alloc::{AllocError as NoMemory, Global};
use std::marker::Model;

/// The open and held tasks, the entries, and the word: the least cost found so far, or `MAX` for none.
#[derive(Drop)]
pub struct Pool {
    open: Vec<Task>,
    held: Vec<Option<Task>>,
    entries: Vec<Entry>,
    word: u64,
}

impl Model for Pool {
    ghost use Rattle.sf_search_core.specs.State.{State};

    ghost Value = { State };

    ghost view = { λ p. record {
      waiting = p.open.items;
      held = p.held.items;
      entries = p.entries.items;
      word = p.word;
    } };
}

/// The children that a way of branching makes, in order.
fn children(design: &Design, node: &Node, how: How) -> Result<Vec<Node>, NoMemory>
    requires subproblem { IsSubproblem design.now node.now }
    requires may { may_branch how node.now ≡ true }
    ensures { IfOk result (λ children. children.items ≡ branched (kind_of how) node.now) }
{
    match how {
        How::Extend => node.extend_children(design),
        How::Split(block) => {
            let (left, right) = node.split_children(design, block)?;
            let mut halves = Vec::new(node.allocator());
            halves.push(left)?;
            halves.push(right)?;
            Ok(halves)
        }
    }
}

/// Whether the subproblem may branch so.
fn may_branch(how: How, node: &Node) -> bool
    ensures { result ≡ may_branch how node.now }
{
    match how {
        How::Extend => !node.is_complete(),
        How::Split(block) => node.can_split(block),
    }
}

/// The kind of the entry that a way of branching makes.
fn kind_of(how: How) -> Kind
    ensures { result ≡ kind_of how }
{
    match how {
        How::Extend => Kind::Extended,
        How::Split(block) => Kind::Split(block),
    }
}

/// Each subproblem with its bound, in order.
fn with_bounds(alloc: Global, nodes: Vec<Node>, costs: Vec<u64>) -> Result<Vec<Task>, NoMemory>
    ensures { IfOk result (λ made. made.items ≡ tasks nodes.items costs.items) }
{
    nodes
        .into_iter()
        .zip(costs)
        .map(|(node, bound)| Task { node, bound })
        .collect(alloc)
}

/// The children that a way of branching makes, in order, with these bounds.
fn children_with(
    design: &Design,
    node: &Node,
    how: How,
    costs: Costs,
) -> Result<Vec<Task>, NoMemory>
    requires subproblem { IsSubproblem design.now node.now }
    requires may { may_branch how node.now ≡ true }
    ensures { IfOk result (λ children. children.items ≡ tasks (branched (kind_of how) node.now) costs) }
{
    let nodes = children(design, node, how)?;
    with_bounds(node.allocator(), nodes, costs.into_vec())
}

/// Puts the children at the end, the first of them last.
fn put(waiting: &mut Vec<Task>, mut children: Vec<Task>)
    requires { vec_len waiting.old + vec_len children ≤ vec_capacity waiting.old }
    ensures { waiting.new.items ≡ waiting.old.items ++ reverse children.items }
{
    while let Some(child) = children.pop() {
        waiting.push_reserved(child);
    }
}

impl Pool {
    ghost use Rattle.std.specs.Prelude.{slice_get};
    ghost use Rattle.sf_node.specs.Subproblem.{root};
    ghost use Rattle.sf_search_core.specs.Core.{IsCoreState};
    ghost use Rattle.sf_search_core.specs.Events.{applied, take, replace, close, offer, held_by, CanCome};
    ghost use Rattle.sf_search_core.specs.Outcome.{opening};
    ghost use Rattle.sf_pool.specs.Calls.{Answers, AreChildren, IsBranching};

    /// The machine at its start: the root is open, and no worker holds a task.
    pub fn new<V: Values>(
        alloc: Global,
        design: &Design,
        root_bound: u64,
        workers: u16,
        values: &V,
    ) -> Result<Pool, NoMemory>
        requires { root_bound ≡ V.value values.now design.now (root design.now) }
        ensures opening { IfOk result
            (λ pool. pool ≡ opening design.now (V.value values.now design.now) workers) }
        ensures core { IfOk result (λ pool. IsCoreState design.now (V.value values.now design.now) pool) }
    {
        let mut open = Vec::new(alloc);
        open.push(Task {
            node: Node::root(alloc, design)?,
            bound: root_bound,
        })?;
        Ok(Pool {
            open,
            held: idle(alloc, workers)?,
            entries: Vec::new(alloc),
            word: MAX,
        })
    }

    /// Makes one step, or refuses it and stays as it is.
    pub fn apply<V: Values>(
        &mut self,
        design: &Design,
        event: Event,
        values: &V,
    ) -> Result<(), Refusal>
        requires core { IsCoreState design.now (V.value values.now design.now) self.old }
        requires can { CanCome (V.value values.now design.now) self.old event }
        ensures applied { Answers (applied design.now self.old event) self.old result self.new }
        ensures core { IsCoreState design.now (V.value values.now design.now) self.new }
    {
        match event {
            Event::Take(worker, place) => self.take(worker, place),
            Event::Replace(worker, how, value, costs) => self.replace(
                design, worker, how, value, costs, values,
            ),
            Event::Close(worker, value) => self.close(worker, value),
            Event::Offer(worker, cost) => self.offer(design, worker, cost),
        }
    }

    /// The open task at a place goes to the worker.
    fn take(&mut self, worker: u16, place: usize) -> Result<(), Refusal>
        requires { worker < length self.old.held }
        ensures { Answers (take self.old worker place (slice_get self.old.waiting place)
            (held_by self.old worker)) self.old result self.new }
    {
        let worker = usize::from(worker);
        if place >= self.open.len() || self.held[worker].is_some() {
            return Err(Refusal::NoPlace);
        }
        let task = self.open.remove(place);
        self.held[worker] = Some(task);
        Ok(())
    }

    /// The worker's task becomes its children, with these bounds, and an entry.
    fn replace<V: Values>(
        &mut self,
        design: &Design,
        worker: u16,
        how: How,
        value: u64,
        costs: Costs,
        values: &V,
    ) -> Result<(), Refusal>
        requires core { IsCoreState design.now (V.value values.now design.now) self.old }
        requires can { CanCome (V.value values.now design.now) self.old
            (Event.Replace worker how value costs) }
        ensures { Answers (replace self.old worker how value costs
            (held_by self.old worker)) self.old result self.new }
    {
        let task = self.branching(worker, how, value)?;
        let Ok(children) = children_with(design, &task.node, how, costs) else {
            return Err(Refusal::NoMemory);
        };
        self.turn_into(worker, how, value, children)
    }

    /// The task that the worker holds, where a Replace of it is not refused.
    fn branching(&self, worker: u16, how: How, value: u64) -> Result<&Task, Refusal>
        requires { worker < length self.now.held }
        ensures { MatchResult result (λ task. IsBranching self.now worker how value task.now)
            (λ why. (costs : List ℕ)
            → replace self.now worker how value costs (held_by self.now worker) ≡ Err why) }
    {
        let worker = usize::from(worker);
        let Some(task) = &self.held[worker] else {
            return Err(Refusal::NotHeld);
        };
        if value < self.word {
            return Err(Refusal::Stale(value, self.word));
        }
        if task.bound >= value {
            return Err(Refusal::NotBelow(task.bound, value));
        }
        if !may_branch(how, &task.node) {
            return Err(Refusal::NoStep);
        }
        Ok(task)
    }

    /// Turns the worker's task into these children and an entry.
    fn turn_into(
        &mut self,
        worker: u16,
        how: How,
        value: u64,
        children: Vec<Task>,
    ) -> Result<(), Refusal>
        requires worker { worker < length self.old.held }
        requires branching { (task : Task) × IsBranching self.old worker how value task }
        requires children { AreChildren how children.items (held_by self.old worker) }
        ensures { Answers (replace self.old worker how value (map (λ child. child.bound) children.items)
            (held_by self.old worker)) self.old result self.new }
    {
        let worker = usize::from(worker);
        if self.open.reserve(children.len()).is_err() || self.entries.reserve(1).is_err() {
            return Err(Refusal::NoMemory);
        }
        let Some(task) = self.held[worker].take() else {
            unreachable!()
        };
        put(&mut self.open, children);
        self.entries.push_reserved(Entry {
            node: task.node,
            kind: kind_of(how),
            value,
        });
        Ok(())
    }

    /// The worker's task becomes a closed entry.
    fn close(&mut self, worker: u16, value: u64) -> Result<(), Refusal>
        requires { worker < length self.old.held }
        ensures { Answers (close self.old worker value (held_by self.old worker)) self.old result self.new }
    {
        let worker = usize::from(worker);
        let Some(task) = &self.held[worker] else {
            return Err(Refusal::NotHeld);
        };
        if value < self.word {
            return Err(Refusal::Stale(value, self.word));
        }
        if task.bound < value {
            return Err(Refusal::NotAtLeast(task.bound, value));
        }
        if self.entries.reserve(1).is_err() {
            return Err(Refusal::NoMemory);
        }
        let Some(task) = self.held[worker].take() else {
            unreachable!()
        };
        self.entries.push_reserved(Entry {
            node: task.node,
            kind: Kind::Closed,
            value,
        });
        Ok(())
    }

    /// The word becomes the cost of the worker's solved task, where that is less.
    fn offer(&mut self, design: &Design, worker: u16, cost: u64) -> Result<(), Refusal>
        requires { worker < length self.old.held }
        ensures { Answers (offer design.now self.old cost
            (held_by self.old worker)) self.old result self.new }
    {
        let worker = usize::from(worker);
        let Some(task) = &self.held[worker] else {
            return Err(Refusal::NotHeld);
        };
        if !task.node.is_solved(design) || task.bound != cost {
            return Err(Refusal::NotCost(cost, task.bound));
        }
        self.word = self.word.min(cost);
        Ok(())
    }

    /// The open tasks; the last is the one that came last.
    pub fn open_tasks(&self) -> &[Task]
        ensures { result.now ≡ self.now.waiting }
    {
        &self.open
    }

    /// The task that a worker holds.
    pub fn held(&self, worker: u16) -> Option<&Task>
        requires { worker < length self.now.held }
        ensures { MatchOption result (held_by self.now worker ≡ None)
            (λ task. held_by self.now worker ≡ Some task.now) }
    {
        self.held[usize::from(worker)].as_ref()
    }

    /// What was decided, in order.
    pub fn entries(&self) -> &[Entry]
        ensures { result.now ≡ self.now.entries }
    {
        &self.entries
    }

    /// The least cost found so far, or `MAX` for none.
    pub fn word(&self) -> u64
        ensures { result ≡ self.now.word }
    {
        self.word
    }
}

/// Nothing held by any worker.
fn idle(alloc: Global, workers: u16) -> Result<Vec<Option<Task>>, NoMemory>
    ensures { IfOk result (λ held. held.items ≡ replicate workers None) }
{
    let mut held = Vec::new(alloc);
    for _worker in 0..workers {
        held.push(None)?;
    }
    Ok(held)
}
