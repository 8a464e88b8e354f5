//! Jobs files with comments, blank lines and other ends of lines, lines that are no jobs, and the words of
//! the batch program.

use sf_io::Status;
use sf_jobs::{Answer, JobsFault, batch_status, batch_text, read_jobs, read_team_words};
use sf_options::{InputFiles, PlanWords};
use std::alloc::{AllocError, Global};

/// Lines behind a good one, none of which is a job.
const NO_JOBS: [&str; 9] = [
    "a - - 0",
    "a - - 0 - -",
    "a - - - -",
    "a - - 65536 -",
    "a - - 0 0",
    "a - - 0 4000001",
    "a - - +0 -",
    "a - - 0 -1",
    "a - - 000000000000000000000 -",
];

/// Texts of the batch program's words that mean nothing.
const NO_TEAMS: [&str; 8] = [
    "",
    "--team 2 --jobs a",
    "--jobs=a --team 2",
    "--jobs a --team=2",
    "--jobs a --team 0",
    "--jobs a --team 17",
    "--jobs -a --team 2",
    "--jobs a --team 2 --",
];

/// The words of a text.
fn words_of(alloc: Global, text: &str) -> Result<Vec<String>, AllocError> {
    let mut words = Vec::new(alloc);
    for word in text.split_ascii_whitespace() {
        words.push(String::from_str(alloc, word)?)?;
    }
    Ok(words)
}

/// A job with all of its fields, one with the least, and two without a meaning, behind comments and blank lines.
const JOBS: &[u8] =
    b"# jobs\r\n\r\na.blocks a.nets a.pl 0065535 4000000\r\n \t# -\n\tb - - 0 - \n-b - - 0 1\nb -n - 0 1";

/// Whether these are the words of a job with all of its fields.
fn is_full(job: &Option<PlanWords<'_>>) -> bool {
    let Some(job) = job else {
        return false;
    };
    let InputFiles::Gsrc { blocks, nets, pl } = job.design.input else {
        return false;
    };
    blocks == "a.blocks"
        && nets == Some("a.nets")
        && pl == Some("a.pl")
        && job.weights.wire == 65_535
        && job.nodes == Some(4_000_000)
}

/// Whether these are the words of a job with its blocks alone.
fn is_least(job: &Option<PlanWords<'_>>) -> bool {
    match job {
        Some(job) => job.weights.wire == 0 && job.nodes.is_none() && job.workers == 1,
        None => false,
    }
}

/// Whether the jobs have their fields.
fn have_fields(alloc: Global) -> Result<bool, JobsFault> {
    let jobs = read_jobs(alloc, JOBS)?;
    Ok(match jobs.as_slice() {
        [first, second, third, last] => {
            is_full(first) && is_least(second) && third.is_none() && last.is_none()
        }
        _ => false,
    })
}

/// Each field reaches the words of its job, a hyphen leaves it out, and a name with a hyphen at its front
/// leaves a job without a meaning.
#[test]
fn fields_of_jobs(rt: HostRuntime) {
    assert!(rt; matches!(have_fields(rt.alloc()), Ok(true)));
}

/// How many jobs a text has, or the line of its fault behind 1 for one that is no job and 2 for one too many.
fn read_as(alloc: Global, text: &[u8]) -> (u8, u64) {
    match read_jobs(alloc, text) {
        Ok(jobs) => (0, jobs.len() as u64),
        Err(JobsFault::BadLine(line)) => (1, line),
        Err(JobsFault::TooMany(line)) => (2, line),
        Err(JobsFault::NoMemory) => (3, 0),
    }
}

/// The same of a text with this line behind a good one and a comment.
fn line_read_as(alloc: Global, line: &str) -> Result<(u8, u64), AllocError> {
    let text = format!(in alloc; "a - - 0 -\n#\n{line}\n")?;
    Ok(read_as(alloc, text.as_bytes()))
}

/// The same of a text of so many jobs and these last words.
fn many_read_as(alloc: Global, count: u64, last: &str) -> Result<(u8, u64), AllocError> {
    let mut text = String::new(alloc);
    for _ in 0..count {
        text.push_str("a - - 0 -\n")?;
    }
    text.push_str(last)?;
    Ok(read_as(alloc, text.as_bytes()))
}

/// A line that is no job is told before the number of jobs.
#[test]
fn refused_jobs(rt: HostRuntime) {
    for line in NO_JOBS {
        assert!(rt; line_read_as(rt.alloc(), line) == Ok((1, 3)), "{line}");
    }
    for (count, last, read) in [
        (256, "", (0, 256)),
        (257, "", (2, 257)),
        (257, "a\n", (1, 258)),
    ] {
        assert!(rt;
            many_read_as(rt.alloc(), count, last) == Ok(read),
            "{count}"
        );
    }
}

/// Whether the words of a text mean the jobs in a=b and a team of 16, if they mean anything.
fn mean_sixteen(alloc: Global, text: &str) -> Result<Option<bool>, AllocError> {
    let words = words_of(alloc, text)?;
    Ok(match read_team_words(&words) {
        Some(read) => Some(read.jobs == "a=b" && read.team == 16),
        None => None,
    })
}

/// The batch program's words have one form.
#[test]
fn words_of_teams(rt: HostRuntime) {
    assert!(rt; mean_sixteen(rt.alloc(), "--jobs a=b --team 0016") == Ok(Some(true)));
    for text in NO_TEAMS {
        assert!(rt; mean_sixteen(rt.alloc(), text) == Ok(None), "{text}");
    }
}

/// What a job came to.
fn answer_of(alloc: Global, status: Status, text: &[u8]) -> Result<Answer, AllocError> {
    Ok(Answer {
        status,
        text: Vec::from_slice(alloc, text)?,
    })
}

/// Whether three jobs are told so, and the first of them alone and all of them have these statuses.
fn are_told(alloc: Global, wanted: &[u8], first: Status, all: Status) -> Result<bool, AllocError> {
    let mut jobs = Vec::new(alloc);
    jobs.push(answer_of(alloc, Status::Open, b"status Open\n")?)?;
    let status = batch_status(&jobs);
    jobs.push(answer_of(alloc, Status::ReadFault, b"")?)?;
    jobs.push(answer_of(alloc, Status::Usage, b"error Usage\n")?)?;
    let text = batch_text(alloc, &jobs)?;
    Ok(text.as_slice() == wanted && status == first && batch_status(&jobs) == all)
}

/// Jobs are told in their order, and the first that isn't the end of a search gives the status.
#[test]
fn texts_of_jobs(rt: HostRuntime) {
    let wanted = b"job 0 3\nstatus Open\njob 1 7\njob 2 2\nerror Usage\n";
    assert!(rt; are_told(rt.alloc(), wanted, Status::Done, Status::ReadFault) == Ok(true));
}
