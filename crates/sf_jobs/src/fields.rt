//! The five words of a job's line, and what each of them says.

ghost use Rattle.std.specs.Prelude.{◌≡◌, ◌≤◌, ℕ, Option, IfSome, IfNone, option_map};
ghost use Rattle.std.specs.Str.{IsUtf8};
ghost use Rattle.sf_lex.specs.Text.{words};
ghost use Rattle.sf_lex.specs.Gap.{is_gap};
ghost use Rattle.sf_jobs.specs.Job.{five_words, given, IsWire, IsBudget};
ghost use Rattle.sf_jobs.specs.Seen.{job_of};

use sf_lex::{Gap, next_field, read_whole};

/// The words of a line of five words.
#[derive(Clone, Copy)]
pub struct Fields<'a> {
    pub blocks: &'a [u8],
    pub nets: &'a [u8],
    pub pl: &'a [u8],
    pub wire: &'a [u8],
    pub nodes: &'a [u8],
}

/// The words of a line of five words.
#[tactic(auto, unfolding(crate::specs::Job::five_words))]
pub fn split_fields(line: &[u8]) -> Option<Fields<'_>>
    ensures { option_map job_of result ≡ five_words (words (is_gap Gap.Blanks) line.now) }
{
    let (blocks, rest) = next_field(line, Gap::Blanks)?;
    let (nets, rest) = next_field(rest, Gap::Blanks)?;
    let (pl, rest) = next_field(rest, Gap::Blanks)?;
    let (wire, rest) = next_field(rest, Gap::Blanks)?;
    let (nodes, rest) = next_field(rest, Gap::Blanks)?;
    if next_field(rest, Gap::Blanks).is_some() {
        return None;
    }
    Some(Fields {
        blocks,
        nets,
        pl,
        wire,
        nodes,
    })
}

/// A name, where the field is UTF-8.
pub fn read_name(field: &[u8]) -> Option<&str>
    ensures name { IfSome result (λ name. name.now ≡ field.now) }
    ensures text { IfSome result (λ name. IsUtf8 field.now) }
    ensures none { IfNone result (¬ (IsUtf8 field.now)) }
{
    match std::str::from_utf8(field) {
        Ok(name) => Some(name),
        Err(_) => None,
    }
}

/// What a field says that may be left out by a hyphen.
pub fn given(field: &str) -> Option<&str>
    ensures { option_map (λ s. s.now) result ≡ given field.now }
{
    if field == "-" { None } else { Some(field) }
}

/// The weight of the wires.
pub fn read_wire(field: &[u8]) -> Option<u16>
    ensures wire { IfSome result (IsWire field.now) }
    ensures none { IfNone result ((wire : ℕ) → IsWire field.now wire → ⊥) }
{
    let wire = read_whole(field, 65_535)?;
    Some(wire as u16)
}

/// The budget, where one is given.
pub fn read_budget(field: &[u8]) -> Option<Option<u64>>
    ensures nodes { IfSome result (IsBudget (given field.now)) }
    ensures low { IfSome result (λ o. IfSome o (λ n. 1 ≤ n)) }
    ensures high { IfSome result (λ o. IfSome o (λ n. n ≤ 4_000_000)) }
    ensures none { IfNone result ((nodes : Option ℕ) → IsBudget (given field.now) nodes → ⊥) }
{
    if field == b"-".as_slice() {
        return Some(None);
    }
    let nodes = read_whole(field, 4_000_000)?;
    if nodes == 0 { None } else { Some(Some(nodes)) }
}
