//! What the texts of options mean: required options, formats, ranges and defaults.
ghost use Rattle.std.specs.Prelude.{◌≡◌, List, Some, IfSome, IfNone, codes};
ghost use Rattle.sf_words.specs.declared.options.Key.{Key};
ghost use Rattle.sf_options.specs.Options.{Text, Command};
ghost use Rattle.sf_words.specs.Kept.{texts_of};
ghost use Rattle.sf_words.specs.Meaning.{InputSays, DesignSays, WeightsSay, StartsSay, BoundsSay, PlanSays};
ghost use Rattle.sf_words.specs.Meaning.{CheckSays, ResumeSays, MeasureSays, ShapeSays, KindsSay, GenSays};
ghost use Rattle.sf_words.specs.Meaning.{Says, Means, mode_of, IsReading};
ghost use Rattle.sf_options.specs.Seen.{text_of, input_seen, design_seen, weights_seen, starts_seen, plan_seen};
ghost use Rattle.sf_options.specs.Seen.{check_seen, resume_seen, measure_seen, shape_seen, gen_seen, command_seen};

use crate::options::{Key, Mode};
use crate::outline::read_outline;
use crate::parsed::{Parsed, is_text};
use crate::ranges::{nodes, number, trials};
use sf_lex::Scale;
use sf_options::{
    BoundsChoice, CheckWords, CommandWords, DesignWords, GenWords, InputFiles, Kinds, MeasureWords,
    PlanWords, ResumeWords, ShapeWords, StartWords, WeightWords,
};

/// Reads the files of a design in the format of GSRC.
fn read_gsrc<'a>(texts: &Parsed<'_, 'a>) -> Option<InputFiles<'a>>
    requires { texts_of texts.now Key.Format ≡ Some (codes "gsrc") }
    ensures { IsReading (InputSays (texts_of texts.now)) input_seen result }
{
    if texts.text(Key::Yal).is_some() {
        return None;
    }
    let blocks = texts.text(Key::Blocks)?;
    Some(InputFiles::Gsrc {
        blocks,
        nets: texts.text(Key::Nets),
        pl: texts.text(Key::Pl),
    })
}

/// Reads the file of a design in the format of MCNC.
fn read_yal<'a>(texts: &Parsed<'_, 'a>) -> Option<InputFiles<'a>>
    requires { texts_of texts.now Key.Format ≡ Some (codes "yal") }
    ensures { IsReading (InputSays (texts_of texts.now)) input_seen result }
{
    if texts.text(Key::Blocks).is_some()
        || texts.text(Key::Nets).is_some()
        || texts.text(Key::Pl).is_some()
    {
        return None;
    }
    let file = texts.text(Key::Yal)?;
    Some(InputFiles::Yal { file })
}

/// The files that tell a design.
fn read_input<'a>(texts: &Parsed<'_, 'a>) -> Option<InputFiles<'a>>
    ensures { IsReading (InputSays (texts_of texts.now)) input_seen result }
{
    let format = texts.text(Key::Format);
    if is_text(format, "gsrc") {
        read_gsrc(texts)
    } else if is_text(format, "yal") {
        read_yal(texts)
    } else {
        None
    }
}

/// The options that tell a design.
#[tactic(auto, unfolding(crate::specs::Numbers::range))]
fn read_design<'a>(texts: &Parsed<'_, 'a>) -> Option<DesignWords<'a>>
    ensures { IsReading (DesignSays (texts_of texts.now)) design_seen result }
{
    let input = read_input(texts)?;
    let per_unit = number(Key::PerUnit, texts.text(Key::PerUnit))?;
    if !matches!(per_unit, 1 | 10 | 100 | 1000) {
        return None;
    }
    let is_fixed = texts.text(Key::Fixed).is_some();
    let shapes = number(Key::Shapes, texts.text(Key::Shapes))? as u16;
    let scale = Scale { per_unit };
    let (width, height) = read_outline(texts.text(Key::Outline), scale)?;
    Some(DesignWords {
        input,
        scale,
        is_fixed,
        shapes,
        width,
        height,
    })
}

/// The options that tell what counts in a cost.
#[tactic(auto, unfolding(crate::specs::Numbers::range))]
fn read_weights<'a>(texts: &Parsed<'_, 'a>) -> Option<WeightWords<'a>>
    ensures { IsReading (WeightsSay (texts_of texts.now)) weights_seen result }
{
    let area = number(Key::AreaWeight, texts.text(Key::AreaWeight))? as u16;
    let wire = number(Key::WireWeight, texts.text(Key::WireWeight))? as u16;
    if area == 0 && wire == 0 {
        return None;
    }
    Some(WeightWords {
        area,
        wire,
        net_weights: texts.text(Key::NetWeights),
    })
}

/// The walks that a search may begin with.
#[tactic(auto, unfolding(crate::specs::Numbers::range))]
fn read_starts(texts: &Parsed<'_, '_>) -> Option<StartWords>
    ensures { IsReading (StartsSay (texts_of texts.now)) starts_seen result }
{
    let is_asked = texts.text(Key::Starts).is_some() || texts.text(Key::Begin).is_some();
    if !is_asked && texts.text(Key::Improve).is_some() {
        return None;
    }
    Some(StartWords {
        count: number(Key::Starts, texts.text(Key::Starts))? as u16,
        moves: number(Key::Moves, texts.text(Key::Moves))? as u32,
        seed: number(Key::StartSeed, texts.text(Key::StartSeed))?,
        improve: trials(texts.text(Key::Improve))?,
    })
}

/// Which bound closes subproblems.
fn read_bounds(text: Option<&str>) -> Option<BoundsChoice>
    ensures { IsReading (BoundsSay (text_of text.entry)) (λ bounds. bounds) result }
{
    match text {
        None => Some(BoundsChoice::by_default()),
        Some(text) => {
            if text == "standard" {
                Some(BoundsChoice::Standard)
            } else if text == "strong" {
                Some(BoundsChoice::Strong)
            } else if text == "pair" {
                Some(BoundsChoice::Pair)
            } else if text == "fit" {
                Some(BoundsChoice::Fit)
            } else if text == "both" {
                Some(BoundsChoice::Both)
            } else {
                None
            }
        }
    }
}

/// The options of `plan`.
#[tactic(auto, unfolding(crate::specs::Numbers::range, crate::specs::Numbers::nodes_range))]
fn read_plan<'a>(texts: &Parsed<'_, 'a>) -> Option<PlanWords<'a>>
    ensures { IsReading (PlanSays (texts_of texts.now)) plan_seen result }
{
    let is_long = texts.text(Key::Long).is_some();
    Some(PlanWords {
        design: read_design(texts)?,
        weights: read_weights(texts)?,
        cert: texts.text(Key::Cert)?,
        pl_out: texts.text(Key::PlOut),
        workers: number(Key::Workers, texts.text(Key::Workers))? as u16,
        nodes: nodes(is_long, texts.text(Key::Nodes))?,
        is_long,
        starts: read_starts(texts)?,
        begin: texts.text(Key::Begin),
        bounds: read_bounds(texts.text(Key::Bounds))?,
    })
}

/// The options of `check`.
fn read_check<'a>(texts: &Parsed<'_, 'a>) -> Option<CheckWords<'a>>
    ensures { IsReading (CheckSays (texts_of texts.now)) check_seen result }
{
    Some(CheckWords {
        design: read_design(texts)?,
        weights: read_weights(texts)?,
        cert: texts.text(Key::Cert)?,
        rewrite: texts.text(Key::Rewrite),
        is_long: texts.text(Key::Long).is_some(),
        bounds: read_bounds(texts.text(Key::Bounds))?,
    })
}

/// The options of `resume`.
#[tactic(auto, unfolding(crate::specs::Numbers::range, crate::specs::Numbers::nodes_range))]
fn read_resume<'a>(texts: &Parsed<'_, 'a>) -> Option<ResumeWords<'a>>
    ensures { IsReading (ResumeSays (texts_of texts.now)) resume_seen result }
{
    let is_long = texts.text(Key::Long).is_some();
    Some(ResumeWords {
        design: read_design(texts)?,
        weights: read_weights(texts)?,
        cert: texts.text(Key::Cert)?,
        cert_out: texts.text(Key::CertOut)?,
        pl_out: texts.text(Key::PlOut),
        workers: number(Key::Workers, texts.text(Key::Workers))? as u16,
        nodes: nodes(is_long, texts.text(Key::Nodes))??,
        is_long,
        bounds: read_bounds(texts.text(Key::Bounds))?,
    })
}

/// The options of `measure`.
fn read_measure<'a>(texts: &Parsed<'_, 'a>) -> Option<MeasureWords<'a>>
    ensures { IsReading (MeasureSays (texts_of texts.now)) measure_seen result }
{
    Some(MeasureWords {
        design: read_design(texts)?,
        weights: read_weights(texts)?,
        placed: texts.text(Key::Placed)?,
    })
}

/// The options of `shape`.
fn read_shape<'a>(texts: &Parsed<'_, 'a>) -> Option<ShapeWords<'a>>
    ensures { IsReading (ShapeSays (texts_of texts.now)) shape_seen result }
{
    Some(ShapeWords {
        design: read_design(texts)?,
        expr: texts.text(Key::Expr)?,
    })
}

/// Which blocks a generated design has.
fn read_kinds(text: Option<&str>) -> Option<Kinds>
    ensures { IsReading (KindsSay (text_of text.entry)) (λ kinds. kinds) result }
{
    match text {
        None => Some(Kinds::by_default()),
        Some(text) => {
            if text == "hard" {
                Some(Kinds::Hard)
            } else if text == "mixed" {
                Some(Kinds::Mixed)
            } else {
                None
            }
        }
    }
}

/// The options of `gen`.
#[tactic(auto, unfolding(crate::specs::Numbers::range, crate::specs::Numbers::nodes_range))]
fn read_gen<'a>(texts: &Parsed<'_, 'a>) -> Option<GenWords<'a>>
    ensures { IsReading (GenSays (texts_of texts.now)) gen_seen result }
{
    Some(GenWords {
        seed: number(Key::Seed, texts.text(Key::Seed))?,
        count: number(Key::Count, texts.text(Key::Count))? as u16,
        kinds: read_kinds(texts.text(Key::Kinds))?,
        nodes: nodes(false, texts.text(Key::Nodes))?,
        out: texts.text(Key::Out)?,
    })
}

/// Reads the options of this command.
pub fn read_command<'a>(mode: Mode, texts: &Parsed<'_, 'a>) -> Option<CommandWords<'a>>
    ensures command { IfSome result (λ c. (mode_of (command_seen c) ≡ mode)
        × Says (texts_of texts.now) (command_seen c)) }
    ensures none { IfNone result ((c : Command) → mode_of c ≡ mode → Says (texts_of texts.now) c → ⊥) }
{
    match mode {
        Mode::Plan => Some(CommandWords::Plan(read_plan(texts)?)),
        Mode::Check => Some(CommandWords::Check(read_check(texts)?)),
        Mode::Resume => Some(CommandWords::Resume(read_resume(texts)?)),
        Mode::Measure => Some(CommandWords::Measure(read_measure(texts)?)),
        Mode::Shape => Some(CommandWords::Shape(read_shape(texts)?)),
        Mode::Gen => Some(CommandWords::Gen(read_gen(texts)?)),
    }
}

/// A list of words has at most one meaning.
pub fn meaning_is_unique()
    ensures { (words : List Text) (c d : Command) → Means words c → Means words d → c ≡ d }
{}
