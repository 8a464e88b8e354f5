//! The paths of a certificate's text.

ghost use Rattle.std.specs.Prelude.{◌≡◌, [], ◌∷◌, ◌++◌, map, All, OnOk, string_bytes};
ghost use Rattle.std.specs.List.{flat_map};
ghost use Rattle.sf_cert_text.specs.Paths.{FitsStep, FitsPath, FitsAxis, FitsPaths};
ghost use Rattle.sf_cert_text.specs.Paths.{axis_lines, has_no_paths, number_of, path_text, step_text};
ghost use Rattle.sf_cert_text.specs.Text.{paths_if_any, text_of_lines};

use sf_model::{Path, Paths, Pin, Step};
use std::alloc::AllocError as NoMemory;

/// Whether neither axis has paths.
pub fn has_none(paths: &Paths) -> bool
    ensures { result ≡ has_no_paths paths.now }
{
    paths.across.as_slice().is_empty() && paths.upward.as_slice().is_empty()
}

/// The lines of the paths, where there are paths.
pub fn push_paths(text: &mut String, paths: &Paths) -> Result<(), NoMemory>
    ensures fits { OnOk result (FitsPaths paths.now) }
    ensures text { OnOk result (string_bytes text.new
        ≡ string_bytes text.old ++ text_of_lines (paths_if_any paths.now)) }
{
    if has_none(paths) {
        return Ok(());
    }
    push_axis(text, "across", paths.across.as_slice())?;
    push_axis(text, "upward", paths.upward.as_slice())
}

/// How many paths an axis has, and a line for each.
fn push_axis(text: &mut String, label: &str, paths: &[Path]) -> Result<(), NoMemory>
    ensures fits { OnOk result (FitsAxis paths.now) }
    ensures text { OnOk result (string_bytes text.new
        ≡ string_bytes text.old ++ text_of_lines (axis_lines label.now paths.now)) }
{
    let count = paths.len();
    write!(text, "{label} {count}\n")?;
    push_each(text, paths)
}

/// A line for each path.
fn push_each(text: &mut String, paths: &[Path]) -> Result<(), NoMemory>
    ensures fits { OnOk result (All FitsPath paths.now) }
    ensures text { OnOk result (string_bytes text.new
        ≡ string_bytes text.old ++ text_of_lines (map path_text paths.now)) }
{
    for path in paths {
        push_path(text, path)?;
    }
    Ok(())
}

/// The line of a path.
fn push_path(text: &mut String, path: &Path) -> Result<(), NoMemory>
    ensures fits { OnOk result (FitsPath path.now) }
    ensures text { OnOk result (string_bytes text.new
        ≡ string_bytes text.old ++ (path_text path.now ++ 10 ∷ [])) }
{
    let first = number_of(path.first);
    write!(text, "{first}")?;
    push_steps(text, path.steps.as_slice())?;
    text.push('\n')
}

/// A net and the pin behind it for each step.
fn push_steps(text: &mut String, steps: &[Step]) -> Result<(), NoMemory>
    ensures fits { OnOk result (All FitsStep steps.now) }
    ensures text { OnOk result (string_bytes text.new
        ≡ string_bytes text.old ++ flat_map step_text steps.now) }
{
    for step in steps {
        push_step(text, step)?;
    }
    Ok(())
}

/// A net and the pin behind it.
fn push_step(text: &mut String, step: &Step) -> Result<(), NoMemory>
    ensures fits { OnOk result (FitsStep step.now) }
    ensures text { OnOk result (string_bytes text.new ≡ string_bytes text.old ++ step_text step.now) }
{
    let net = step.net;
    let to = number_of(step.to);
    write!(text, " {net} {to}")
}

/// The number of a pin among the blocks or among the pads.
fn number_of(pin: Pin) -> u16
    ensures { result ≡ number_of pin }
{
    match pin {
        Pin::Block(number) | Pin::Pad(number) => number,
    }
}
