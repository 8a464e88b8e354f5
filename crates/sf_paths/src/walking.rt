//! The paths that a flow is made of.

use crate::flow::Flow;
use crate::levels::Levels;
use crate::web::{Hook, Web};
use sf_model::{Path, Pin, Step, Steps};
use std::alloc::{AllocError, Global};

/// The hook of a pin at which a path enters a net, which is taken out of the flow.
fn take_entry(web: &Web, flow: &mut Flow, pin: Pin) -> Option<Hook> {
    for number in web.of_pin(pin)? {
        if flow.enters(*number) {
            flow.enter_no_more(*number);
            return web.hook(*number);
        }
    }
    None
}

/// The hook of a net at which a path leaves it, which is taken out of the flow.
fn take_exit(web: &Web, flow: &mut Flow, net: u32) -> Option<Hook> {
    for number in web.of_net(net)? {
        if flow.leaves(*number) {
            flow.leave_no_more(*number);
            return web.hook(*number);
        }
    }
    None
}

/// The next step from a pin, which is taken out of the flow.
fn take_step(web: &Web, flow: &mut Flow, pin: Pin) -> Option<Step> {
    let entry = take_entry(web, flow, pin)?;
    let exit = take_exit(web, flow, entry.net)?;
    Some(Step {
        net: entry.net,
        to: exit.pin,
    })
}

/// The steps of a path from a pad to another one, which is taken out of the flow.
fn walk(
    alloc: Global,
    web: &Web,
    flow: &mut Flow,
    pad: u16,
) -> Result<Option<(Vec<Step>, u16)>, AllocError> {
    let mut steps = Vec::new(alloc);
    let mut pin = Pin::Pad(pad);
    for _ in 0..web.hook_count() {
        let Some(step) = take_step(web, flow, pin) else {
            return Ok(None);
        };
        steps.push(step)?;
        if let Pin::Pad(end) = step.to {
            return Ok(Some((steps, end)));
        }
        pin = step.to;
    }
    Ok(None)
}

/// Whether one pad stands behind another along the axis.
fn is_behind(levels: &Levels, end: u16, first: u16) -> bool {
    match (levels.place(end), levels.place(first)) {
        (Some(end), Some(first)) => end > first,
        _ => false,
    }
}

/// The paths of a flow whose ends stand behind their beginnings.
pub fn walk_all(
    alloc: Global,
    web: &Web,
    flow: &mut Flow,
    levels: &Levels,
) -> Result<Vec<Path>, AllocError> {
    let mut paths = Vec::new(alloc);
    for pad in 0..u16::MAX {
        if usize::from(pad) >= web.pad_count() {
            return Ok(paths);
        }
        for _ in 0..u32::MAX {
            let Some((steps, end)) = walk(alloc, web, flow, pad)? else {
                break;
            };
            if is_behind(levels, end, pad) {
                paths.push(Path {
                    first: Pin::Pad(pad),
                    steps: Steps::from_vec(steps),
                })?;
            }
        }
    }
    Ok(paths)
}
