//! A search, place after place, for ways by which more paths go.

use crate::flow::Flow;
use crate::levels::Levels;
use crate::web::{Hook, Web};
use sf_model::Pin;
use std::alloc::{AllocError, Global};

/// A place on a way: a pin, or a net that was entered or that is about to be left.
#[derive(Clone, Copy)]
enum Place {
    Pin(Pin),
    Entry(u32),
    Exit(u32),
}

/// How a place was come to: not at all, as a start, by a hook with a path more, by a hook with a path fewer, or
/// within a net.
#[derive(Clone, Copy, PartialEq, Eq)]
enum Way {
    Unseen,
    Start,
    More(usize),
    Fewer(usize),
    Within,
}

/// From which pads to which others paths are sought: from those up to a level to those from another level on.
#[derive(Clone, Copy)]
pub struct Span {
    pub low: u64,
    pub high: u64,
}

/// The ways to all places, and the places in the order in which they were come to.
#[derive(Drop)]
pub struct Search {
    blocks: Vec<Way>,
    pads: Vec<Way>,
    entries: Vec<Way>,
    exits: Vec<Way>,
    order: Vec<Place>,
}

/// The ways to so many places that were not come to.
fn unseen(alloc: Global, count: usize) -> Result<Vec<Way>, AllocError> {
    let mut ways = Vec::with_capacity(alloc, count)?;
    for _ in 0..count {
        ways.push(Way::Unseen)?;
    }
    Ok(ways)
}

/// Forgets the ways.
fn forget(ways: &mut [Way]) {
    for way in ways.iter_mut() {
        *way = Way::Unseen;
    }
}

/// Notes one of the ways.
fn note(ways: &mut [Way], at: usize, by: Way) {
    if let Some(way) = ways.get_mut(at) {
        *way = by;
    }
}

/// One of the ways.
fn noted(ways: &[Way], at: usize) -> Option<Way> {
    match ways.get(at) {
        Some(way) => Some(*way),
        None => None,
    }
}

impl Search {
    /// Before any search.
    pub fn new(alloc: Global, web: &Web) -> Result<Search, AllocError> {
        Ok(Search {
            blocks: unseen(alloc, web.block_count())?,
            pads: unseen(alloc, web.pad_count())?,
            entries: unseen(alloc, web.net_count())?,
            exits: unseen(alloc, web.net_count())?,
            order: Vec::new(alloc),
        })
    }

    /// How many places there are.
    fn place_count(&self) -> usize {
        self.blocks
            .len()
            .saturating_add(self.pads.len())
            .saturating_add(self.entries.len())
            .saturating_add(self.exits.len())
    }

    /// The way to a place.
    fn way(&self, place: Place) -> Option<Way> {
        match place {
            Place::Pin(Pin::Block(block)) => noted(&self.blocks, usize::from(block)),
            Place::Pin(Pin::Pad(pad)) => noted(&self.pads, usize::from(pad)),
            Place::Entry(net) => noted(&self.entries, net as usize),
            Place::Exit(net) => noted(&self.exits, net as usize),
        }
    }

    /// Notes the way to a place, where it is the first.
    fn reach(&mut self, place: Place, by: Way) -> Result<(), AllocError> {
        if self.way(place) != Some(Way::Unseen) {
            return Ok(());
        }
        match place {
            Place::Pin(Pin::Block(block)) => note(&mut self.blocks, usize::from(block), by),
            Place::Pin(Pin::Pad(pad)) => note(&mut self.pads, usize::from(pad), by),
            Place::Entry(net) => note(&mut self.entries, net as usize, by),
            Place::Exit(net) => note(&mut self.exits, net as usize, by),
        }
        self.order.push(place)?;
        Ok(())
    }

    /// Begins at the pads up to a level.
    fn begin(&mut self, levels: &Levels, low: u64) -> Result<(), AllocError> {
        forget(&mut self.blocks);
        forget(&mut self.pads);
        forget(&mut self.entries);
        forget(&mut self.exits);
        self.order.clear();
        for pad in 0..u16::MAX {
            match levels.level(pad) {
                Some(level) if level <= low => self.reach(Place::Pin(Pin::Pad(pad)), Way::Start)?,
                Some(_) => {}
                None => return Ok(()),
            }
        }
        Ok(())
    }

    /// Seeks ways for more paths of a span and sends a path along each that it finds; the answer is whether there
    /// was one. Each place and each hook that it looks at takes one of the steps, and where these are spent it
    /// ends.
    pub fn send_paths(
        &mut self,
        web: &Web,
        flow: &mut Flow,
        levels: &Levels,
        span: Span,
        steps: &mut u64,
    ) -> Result<bool, AllocError> {
        let count = self.place_count();
        *steps = steps.saturating_sub(count as u64);
        if *steps == 0 {
            return Ok(false);
        }
        self.begin(levels, span.low)?;
        let mut sent = false;
        for next in 0..count {
            let Some(place) = self.order.get(next) else {
                return Ok(sent);
            };
            match *place {
                Place::Pin(pin) => self.go_on_from_pin(web, flow, pin, steps)?,
                Place::Entry(net) => self.go_on_from_entry(web, flow, net, steps)?,
                Place::Exit(net) => {
                    if self.go_on_from_exit(web, flow, levels, net, span.high, steps)? {
                        sent = true;
                    }
                }
            }
            if *steps == 0 {
                return Ok(sent);
            }
        }
        Ok(sent)
    }

    /// On from a pin: into its nets, or back to where a path left one.
    fn go_on_from_pin(
        &mut self,
        web: &Web,
        flow: &Flow,
        pin: Pin,
        steps: &mut u64,
    ) -> Result<(), AllocError> {
        let Some(hooks) = web.of_pin(pin) else {
            return Ok(());
        };
        *steps = steps.saturating_sub(hooks.len() as u64);
        for number in hooks {
            if let Some(Hook { net, .. }) = web.hook(*number) {
                self.reach(Place::Entry(net), Way::More(*number))?;
                if flow.leaves(*number) {
                    self.reach(Place::Exit(net), Way::Fewer(*number))?;
                }
            }
        }
        Ok(())
    }

    /// On from a net that was entered: through it, or back to where a path entered it.
    fn go_on_from_entry(
        &mut self,
        web: &Web,
        flow: &Flow,
        net: u32,
        steps: &mut u64,
    ) -> Result<(), AllocError> {
        if flow.has_room(net) {
            self.reach(Place::Exit(net), Way::Within)?;
        }
        if !flow.is_used(net) {
            return Ok(());
        }
        let Some(hooks) = web.of_net(net) else {
            return Ok(());
        };
        *steps = steps.saturating_sub(hooks.len() as u64);
        for number in hooks {
            if flow.enters(*number) {
                self.reach_block(web, *number, Way::Fewer(*number))?;
            }
        }
        Ok(())
    }

    /// On from a net that is about to be left: a path more to each of its pads from the level on, as far as the
    /// way to the net is open; to its blocks; or back to where paths enter it. The answer is whether a path was
    /// sent.
    fn go_on_from_exit(
        &mut self,
        web: &Web,
        flow: &mut Flow,
        levels: &Levels,
        net: u32,
        high: u64,
        steps: &mut u64,
    ) -> Result<bool, AllocError> {
        let Some(hooks) = web.of_net(net) else {
            return Ok(false);
        };
        *steps = steps.saturating_sub(hooks.len() as u64);
        let mut sent = false;
        for number in hooks {
            if self.ends_at(web, flow, levels, *number, high) {
                flow.leave(*number);
                self.send(web, flow, Place::Exit(net));
                sent = true;
            } else {
                self.reach_block(web, *number, Way::More(*number))?;
            }
        }
        if flow.is_used(net) {
            self.reach(Place::Entry(net), Way::Within)?;
        }
        Ok(sent)
    }

    /// Whether one path more may end at a hook: at a pad from the level on, with an open way to its net.
    fn ends_at(&self, web: &Web, flow: &Flow, levels: &Levels, number: usize, high: u64) -> bool {
        match web.hook(number) {
            Some(hook) => {
                levels.is_from(hook.pin, high) && self.is_open(web, flow, Place::Exit(hook.net))
            }
            None => false,
        }
    }

    /// Notes the way to the pin of a hook, where it is a block.
    fn reach_block(&mut self, web: &Web, number: usize, by: Way) -> Result<(), AllocError> {
        match web.hook(number) {
            Some(
                Hook {
                    pin: Pin::Block(block),
                    ..
                },
            ) => self.reach(Place::Pin(Pin::Block(block)), by),
            _ => Ok(()),
        }
    }

    /// The place before one on the way to it.
    fn before(&self, web: &Web, place: Place) -> Option<Place> {
        match (place, self.way(place)?) {
            (Place::Pin(_), Way::More(number)) => Some(Place::Exit(web.hook(number)?.net)),
            (Place::Pin(_), Way::Fewer(number)) => Some(Place::Entry(web.hook(number)?.net)),
            (Place::Entry(net), Way::Within) => Some(Place::Exit(net)),
            (Place::Exit(net), Way::Within) => Some(Place::Entry(net)),
            (Place::Entry(_), Way::More(number)) => Some(Place::Pin(web.hook(number)?.pin)),
            (Place::Exit(_), Way::Fewer(number)) => Some(Place::Pin(web.hook(number)?.pin)),
            _ => None,
        }
    }

    /// Whether the way to a place is open still: since it was found, other paths were sent.
    fn is_open(&self, web: &Web, flow: &Flow, end: Place) -> bool {
        let mut place = end;
        for _ in 0..self.place_count() {
            if !self.is_step_open(flow, place) {
                return false;
            }
            match self.before(web, place) {
                Some(before) => place = before,
                None => return true,
            }
        }
        false
    }

    /// Whether the last step of the way to a place is open.
    fn is_step_open(&self, flow: &Flow, place: Place) -> bool {
        match (place, self.way(place)) {
            (Place::Pin(_), Some(Way::Fewer(number))) => flow.enters(number),
            (Place::Exit(_), Some(Way::Fewer(number))) => flow.leaves(number),
            (Place::Entry(net), Some(Way::Within)) => flow.is_used(net),
            (Place::Exit(net), Some(Way::Within)) => flow.has_room(net),
            _ => true,
        }
    }

    /// Sends one path more along the way to a place.
    fn send(&self, web: &Web, flow: &mut Flow, end: Place) {
        let mut place = end;
        for _ in 0..self.place_count() {
            self.take_step(flow, place);
            match self.before(web, place) {
                Some(before) => place = before,
                None => return,
            }
        }
    }

    /// What the last step of the way to a place changes.
    fn take_step(&self, flow: &mut Flow, place: Place) {
        match (place, self.way(place)) {
            (Place::Pin(_), Some(Way::More(number))) => flow.leave(number),
            (Place::Pin(_), Some(Way::Fewer(number))) => flow.enter_no_more(number),
            (Place::Entry(_), Some(Way::More(number))) => flow.enter(number),
            (Place::Exit(_), Some(Way::Fewer(number))) => flow.leave_no_more(number),
            (Place::Entry(net), Some(Way::Within)) => flow.go_through_no_more(net),
            (Place::Exit(net), Some(Way::Within)) => flow.go_through(net),
            _ => {}
        }
    }
}
