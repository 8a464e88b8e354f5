//! The words of each command with all of its options, and lists of words at the edges of the table of
//! options.

use sf_options::{BoundsChoice, CommandWords, InputFiles, Kinds, PlanWords, StartWords};
use sf_words::read_words;
use std::alloc::{AllocError, Global};

const GSRC: &str = "--format gsrc --blocks a --nets b --pl c";

const YAL: &str = "--format yal --yal a";

const DESIGN: &str = "--per-unit 10 --fixed --shapes 16 --outline 10.5x7";

const WEIGHTS: &str = "--area-weight 2 --wire-weight 3 --net-weights w";

/// More words behind those of a plan, with which they have a meaning.
const TAKEN: &str = "--outline 1048576x1
--outline 104857.6x.1 --per-unit 10
--shapes 2
--shapes 256
--area-weight 0 --wire-weight 65535
--net-weights w=w
--workers 00000000000000000016
--nodes 1
--long
--long --nodes 4000001
--nodes 1000000000000 --long
--starts 64 --moves 100000 --start-seed 18446744073709551615 --improve 1000000000
--starts 0 --improve 0
--moves 1 --start-seed 0
--begin p
--begin=p=q --start-seed 1
--begin p --improve 0
--starts 2 --begin p --improve 9
--bounds standard
--bounds=strong
--bounds pair
--bounds=fit
--bounds both";

/// More words behind those of a plan, with which they have none.
const REFUSED: &str = "--outline 1048577x1
--outline 0x1
--outline 1x0.0
--outline 10.5x7
--outline 7
--outline 7x
--outline x7
--outline 7x7x7
--outline 7X7
--outline +7x7
--shapes 1
--shapes 257
--per-unit 5
--per-unit 10000
--area-weight 0
--area-weight 0 --wire-weight 0
--wire-weight 65536
--workers 0
--workers 17
--workers 000000000000000000016
--nodes 0
--nodes 4000001
--nodes 1000000000001 --long
--nodes 0 --long
--nodes +1
--nodes
--long=on
--long on
--long --long
--starts 65
--starts -1
--starts
--starts 1 --starts 1
--moves 0
--moves 100001
--start-seed 18446744073709551616
--improve 0
--improve 1 --moves 1
--starts 1 --improve 1000000001
--begin p --improve 1000000001
--begin
--begin=
--begin -p
--begin p --begin p
--bounds weak
--bounds STRONG
--bounds pairs
--bounds
--bounds strong --bounds strong
--cert-out e
--yal b
--fixed=on
--fixed on
--fixed --fixed
--pl-out -e
--pl-out=
--cert d
--placed p
--rewrite r
--net-weights
--net-weights=
--net-weights -w
--net-weights w --net-weights w
--
help
--help
-h
--version
-V";

/// More words behind those of a search that goes on, with which they have a meaning.
const GOES_ON: &str = "--nodes 1
--nodes 4000000 --workers 16 --pl-out e
--long --nodes 1000000000000
--nodes 1 --net-weights w --wire-weight 1 --fixed
--nodes 1 --bounds strong";

/// More words behind those of a search that goes on, with which they have none.
const GOES_NOWHERE: &str = "
--nodes 0
--nodes 4000001
--nodes 1000000000001 --long
--nodes 1 --workers 0
--nodes 1 --workers 17
--nodes 1 --rewrite e
--nodes 1 --cert-out e
--nodes 1 --placed p
--nodes 1 --pl-out -e
--nodes 1 --starts 1
--nodes 1 --moves 1
--nodes 1 --start-seed 1
--nodes 1 --improve 1
--nodes 1 --begin p
--nodes 1 --bounds weak
--long";

/// Lists of words without a meaning, the empty list first.
const WITHOUT: &str = "
--
help
--help
-h
--version
-V
Plan --cert d --format gsrc --blocks a
--cert d plan --format gsrc --blocks a
plan --format gsrc --blocks a.blocks
plan --cert d --blocks a
plan --cert d --format gsrc
plan --cert d --format yal --blocks a
plan --cert d --format GSRC --blocks a
check --rewrite r --format gsrc --blocks a
check --cert d --format gsrc --blocks a --rewrite
check --cert d --format gsrc --blocks a --rewrite=
check --cert d --format gsrc --blocks a --rewrite -r
check --cert d --format gsrc --blocks a --rewrite r --rewrite r
resume --cert d --nodes 1 --format gsrc --blocks a
resume --cert-out d --nodes 1 --format gsrc --blocks a
resume --cert c --cert-out d --nodes 1 --format gsrc
resume --cert c --cert-out -d --nodes 1 --format gsrc --blocks a
check --cert c --cert-out d --format gsrc --blocks a
check --cert c --long=on --format gsrc --blocks a
check --cert c --starts 1 --format gsrc --blocks a
check --cert c --begin p --format gsrc --blocks a
check --cert c --bounds weak --format gsrc --blocks a
measure --placed p --format gsrc --blocks a --bounds strong
measure --placed p --format gsrc --blocks a --starts 1
measure --begin p --format gsrc --blocks a
shape --format gsrc --blocks a --expr e --bounds strong
shape --format gsrc --blocks a --expr e --moves 1
shape --format gsrc --blocks a --expr e --begin p
measure --placed p --format gsrc --blocks a --rewrite r
measure --placed p --format gsrc --blocks a --long
shape --format gsrc --blocks a --expr e --long
gen --seed 7 --count 4 --out g --long
gen --seed 7 --count 4 --out g --nodes 4000001
shape --format gsrc --blocks a --expr e --rewrite r
shape --format gsrc --blocks a --expr e --net-weights w
gen --seed 7 --count 4 --out g --net-weights w
gen --seed 7 --count 4 --out g --starts 1
gen --seed 7 --count 4 --out g --start-seed 1
gen --seed 7 --count 4 --out g --begin p
gen --seed 7 --count 4 --out g --bounds strong
gen --seed 7 --count 4 --out g --rewrite r
gen --seed 7 --seed 7 --count 4 --out g
gen --seed 7 --count 321 --out g
gen --seed 18446744073709551616 --count 4 --out g
gen --seed 7 --count 4 --kinds soft --out g
gen --help";

/// Words in front of others, these others, one list a line, and whether they have a meaning.
const LISTS: [(&str, &str, bool); 6] = [
    ("plan --cert d --format gsrc --blocks a", TAKEN, true),
    ("plan --cert d --format gsrc --blocks a", REFUSED, false),
    (
        "resume --cert c --cert-out d --format gsrc --blocks a",
        GOES_ON,
        true,
    ),
    (
        "resume --cert c --cert-out d --format gsrc --blocks a",
        GOES_NOWHERE,
        false,
    ),
    ("", WITHOUT, false),
    (
        "gen --seed 18446744073709551615",
        "--count 320 --out g",
        true,
    ),
];

/// The words of these texts, valued options as `--name value`.
fn spaced(alloc: Global, texts: &[&str]) -> Result<Vec<String>, AllocError> {
    let mut words = Vec::new(alloc);
    for text in texts {
        for word in text.split_ascii_whitespace() {
            words.push(String::from_str(alloc, word)?)?;
        }
    }
    Ok(words)
}

/// The same words with valued options as `--name=value`.
fn attached(alloc: Global, words: &[String]) -> Result<Vec<String>, AllocError> {
    let mut joined: Vec<String> = Vec::new(alloc);
    for word in words {
        match joined.last_mut() {
            Some(last) if !word.starts_with("--") => {
                last.push_str("=")?;
                last.push_str(word.as_str())?;
            }
            _ => joined.push(word.clone()?)?,
        }
    }
    Ok(joined)
}

/// What these words mean, if anything.
fn meaning<'a>(alloc: Global, words: &'a [String]) -> Result<Option<CommandWords<'a>>, AllocError> {
    match read_words(alloc, words) {
        Ok(read) => Ok(read),
        Err(_) => Err(AllocError),
    }
}

/// Whether the words of these texts have a meaning.
fn has_meaning(alloc: Global, texts: &[&str]) -> Result<bool, AllocError> {
    let words = spaced(alloc, texts)?;
    Ok(meaning(alloc, &words)?.is_some())
}

/// The options of a search.
const SEARCH: &str =
    "--cert d --pl-out e --workers 16 --nodes 1000000000000 --long --bounds strong --starts 8 --moves 10 --start-seed 1 --improve 9 --begin f";

/// The options of a check.
const CHECK: &str = "--cert d --rewrite e --long --bounds strong";

/// The options of a search that goes on.
const GOING_ON: &str =
    "--cert d --cert-out e --pl-out f --workers 16 --nodes 1000000000000 --long --bounds strong";

/// Each command with all of its options that go with a format.
const ALL: [[&str; 5]; 11] = [
    ["plan", GSRC, DESIGN, WEIGHTS, SEARCH],
    ["plan", YAL, DESIGN, WEIGHTS, SEARCH],
    ["check", GSRC, DESIGN, WEIGHTS, CHECK],
    ["check", YAL, DESIGN, WEIGHTS, CHECK],
    ["resume", GSRC, DESIGN, WEIGHTS, GOING_ON],
    ["resume", YAL, DESIGN, WEIGHTS, GOING_ON],
    ["measure", GSRC, DESIGN, WEIGHTS, "--placed d"],
    ["measure", YAL, DESIGN, WEIGHTS, "--placed d"],
    ["shape", GSRC, DESIGN, "", "--expr d"],
    ["shape", YAL, DESIGN, "", "--expr d"],
    [
        "gen",
        "--seed 7",
        "--count 4 --kinds mixed",
        "--nodes 9",
        "--out g",
    ],
];

/// Whether the words of these texts have a meaning, with valued options as `--name value` and as `--name=value`.
fn have_meaning(alloc: Global, texts: &[&str]) -> Result<bool, AllocError> {
    let words = spaced(alloc, texts)?;
    let joined = attached(alloc, &words)?;
    Ok(meaning(alloc, &words)?.is_some() && meaning(alloc, &joined)?.is_some())
}

/// Each command takes all of its options that go with a format, in both spellings.
#[test]
fn all_options(rt: HostRuntime) {
    for row in &ALL {
        assert!(rt; have_meaning(rt.alloc(), row) == Ok(true));
    }
}

/// Lists of words at the edges: those with a meaning, and those without.
#[test]
fn edges(rt: HostRuntime) {
    for (front, lists, meaning) in LISTS {
        for list in lists.lines() {
            assert!(rt;
                has_meaning(rt.alloc(), &[front, list]) == Ok(meaning),
                "{list}"
            );
        }
    }
}

/// Words of commands. `has_values` says what each of them says.
const VALUES: [&str; 9] = [
    "gen --seed=7 --count 004 --out g",
    "plan --cert=x=y --format yal --yal a",
    "plan --cert c --starts 64 --begin p --format yal --yal a",
    "plan --cert c --starts 3 --moves 00100000 --start-seed 18446744073709551615 --improve 0 --format yal --yal a",
    "resume --cert c --cert-out d --long --nodes 0000004000001 --format yal --yal a",
    "shape --expr e --outline .50x007.25 --per-unit 0100 --format gsrc --blocks a --nets b --pl c",
    "measure --placed p --net-weights w --format yal --yal a",
    "check --cert c --rewrite=x=y --format yal --yal a",
    "check --cert c --format yal --yal a",
];

/// Whether these are the defaults of `plan` with a certificate in `x=y` for the YAL file `a`.
fn is_plan_alone(read: &PlanWords<'_>) -> bool {
    matches!(read.design.input, InputFiles::Yal { file: "a" })
        && read.cert == "x=y"
        && read.pl_out.is_none()
        && !read.design.is_fixed
        && (read.weights.area, read.weights.wire, read.workers) == (1, 0, 1)
        && read.weights.net_weights.is_none()
        && (read.design.scale.per_unit, read.design.shapes) == (1, 16)
        && (read.design.width, read.design.height) == (1_048_576, 1_048_576)
        && has_starts(read.starts, 0, 1000, 0, None)
        && read.begin.is_none()
}

/// Whether the walks have these values.
fn has_starts(read: StartWords, count: u16, moves: u32, seed: u64, improve: Option<u64>) -> bool {
    read.count == count && read.moves == moves && read.seed == seed && read.improve == improve
}

/// Whether a command says what the words at this place say.
fn has_values(read: &CommandWords<'_>, place: usize) -> bool {
    match (place, read) {
        (0, CommandWords::Gen(read)) => {
            read.seed == 7
                && read.count == 4
                && read.nodes.is_none()
                && read.kinds == Kinds::Hard
                && read.out == "g"
        }
        (1, CommandWords::Plan(read)) => is_plan_alone(read),
        (2, CommandWords::Plan(read)) => {
            has_starts(read.starts, 64, 1000, 0, None) && read.begin == Some("p")
        }
        (3, CommandWords::Plan(read)) => has_starts(read.starts, 3, 100_000, u64::MAX, Some(0)),
        (4, CommandWords::Resume(read)) => {
            read.cert == "c"
                && read.cert_out == "d"
                && read.pl_out.is_none()
                && read.workers == 1
                && read.nodes == 4_000_001
                && read.is_long
        }
        (5, CommandWords::Shape(read)) => read.design.width == 50 && read.design.height == 725,
        (6, CommandWords::Measure(read)) => read.weights.net_weights == Some("w"),
        (7, CommandWords::Check(read)) => read.cert == "c" && read.rewrite == Some("x=y"),
        (8, CommandWords::Check(read)) => read.cert == "c" && read.rewrite.is_none(),
        _ => false,
    }
}

/// Whether the words at this place are read with their values.
fn are_read(alloc: Global, place: usize, text: &str) -> Result<bool, AllocError> {
    let words = spaced(alloc, &[text])?;
    match meaning(alloc, &words)? {
        Some(read) => Ok(has_values(&read, place)),
        None => Ok(false),
    }
}

/// What the words say reaches the command, and what they leave out has its default.
#[test]
fn values(rt: HostRuntime) {
    for (place, text) in VALUES.iter().enumerate() {
        assert!(rt; are_read(rt.alloc(), place, text) == Ok(true), "{text}");
    }
}

/// Whether a command with these options is to take this bound.
fn takes_bound(
    alloc: Global,
    command: &str,
    more: &str,
    chosen: BoundsChoice,
) -> Result<bool, AllocError> {
    let words = spaced(alloc, &[command, more, YAL])?;
    Ok(match meaning(alloc, &words)? {
        Some(CommandWords::Plan(read)) => read.bounds == chosen,
        Some(CommandWords::Check(read)) => read.bounds == chosen,
        Some(CommandWords::Resume(read)) => read.bounds == chosen,
        _ => false,
    })
}

/// The bound of each command that takes one is the standard one where none is given.
#[test]
fn values_of_bounds(rt: HostRuntime) {
    for (more, chosen) in [
        ("", BoundsChoice::Standard),
        ("--bounds standard", BoundsChoice::Standard),
        ("--bounds strong", BoundsChoice::Strong),
        ("--bounds pair", BoundsChoice::Pair),
        ("--bounds fit", BoundsChoice::Fit),
        ("--bounds both", BoundsChoice::Both),
    ] {
        for command in [
            "plan --cert c",
            "check --cert c",
            "resume --cert c --cert-out d --nodes 1",
        ] {
            let is_taken = takes_bound(rt.alloc(), command, more, chosen);
            assert!(rt; is_taken == Ok(true), "{command} {more}");
        }
    }
}
