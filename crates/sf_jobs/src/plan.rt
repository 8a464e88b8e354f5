//! What a job's words mean.

ghost use Rattle.std.specs.Prelude.{◌≡◌, ◌≤◌, ◌↔◌, ℕ, IsTrue, IfSome, IfNone, option_map};
ghost use Rattle.std.specs.Option.{ForSome};
ghost use Rattle.sf_words.specs.Words.{IsValue};
ghost use Rattle.sf_options.specs.Seen.{plan_seen, text_of};
ghost use Rattle.sf_lex.specs.Scan.{line_of};
ghost use Rattle.sf_jobs.specs.Job.{SaysJob, IsNoJob};
ghost use Rattle.sf_jobs.specs.Plan.{AreValues, options_of};

use crate::fields::{given, read_budget, read_name, read_wire, split_fields};
use sf_lex::Word;
use sf_options::{
    BoundsChoice, DEFAULT_WORKERS, DesignWords, InputFiles, PlanWords, StartWords, WeightWords,
};

/// The names of a job's files.
#[derive(Clone, Copy)]
pub struct Names<'a> {
    pub blocks: &'a str,
    pub nets: Option<&'a str>,
    pub pl: Option<&'a str>,
}

/// Whether a word may be the value of the option before it.
pub fn is_value(text: &str) -> bool
    ensures { IsTrue result ↔ IsValue text.now }
{
    match text.as_bytes() {
        [] => false,
        [first, ..] => *first != b'-',
    }
}

/// Whether a word that is given may be a value.
fn may_be_value(text: Option<&str>) -> bool
    ensures { IsTrue result ↔ ForSome (text_of text.entry) IsValue }
{
    match text {
        None => true,
        Some(text) => is_value(text),
    }
}

/// What the words of a job mean, or that they mean nothing, where a name begins with a hyphen. The name of
/// the certificate is empty, since none is stored.
fn plan_words<'a>(names: Names<'a>, wire: u16, nodes: Option<u64>) -> Option<PlanWords<'a>>
    requires low { ForSome nodes (λ n. 1 ≤ n) }
    requires high { ForSome nodes (λ n. n ≤ 4_000_000) }
    ensures options { IfSome result (λ w. plan_seen w
        ≡ options_of names.entry.blocks.now (text_of names.entry.nets) (text_of names.entry.pl) wire nodes) }
    ensures values { IfSome result (λ w.
        AreValues names.entry.blocks.now (text_of names.entry.nets) (text_of names.entry.pl)) }
    ensures none { IfNone result
        (¬ (AreValues names.entry.blocks.now (text_of names.entry.nets) (text_of names.entry.pl))) }
{
    let Names { blocks, nets, pl } = names;
    if !(is_value(blocks) && may_be_value(nets) && may_be_value(pl)) {
        return None;
    }
    Some(PlanWords {
        design: DesignWords::by_default(InputFiles::Gsrc { blocks, nets, pl }),
        weights: WeightWords::by_wire(wire),
        cert: "",
        pl_out: None,
        workers: DEFAULT_WORKERS,
        nodes,
        is_long: false,
        starts: StartWords::by_default(),
        begin: None,
        bounds: BoundsChoice::by_default(),
    })
}

/// What a line's words mean, where the line is a job.
pub fn read_job<'a>(line: &Word<'a>) -> Option<Option<PlanWords<'a>>>
    ensures job { IfSome result (λ asked. SaysJob (line_of line.now) (option_map plan_seen asked)) }
    ensures none { IfNone result (IsNoJob (line_of line.now)) }
{
    let fields = split_fields(line.text)?;
    let blocks = read_name(fields.blocks)?;
    let nets = read_name(fields.nets)?;
    let pl = read_name(fields.pl)?;
    let wire = read_wire(fields.wire)?;
    let nodes = read_budget(fields.nodes)?;
    let names = Names {
        blocks,
        nets: given(nets),
        pl: given(pl),
    };
    Some(plan_words(names, wire, nodes))
}
