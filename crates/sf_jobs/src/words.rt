//! What the words of the batch program give.

ghost use Rattle.std.specs.Prelude.{◌≤◌};

/// What the words of the batch program give.
#[derive(Clone, Copy)]
pub struct TeamWords<'a> {
    /// The file of the jobs.
    pub jobs: &'a str,
    /// The greatest number of workers.
    pub team: u16,
    ghost team_low: { 1 ≤ team },
    ghost team_high: { team ≤ 16 },
}
