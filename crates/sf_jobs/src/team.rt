//! Reading the words of the batch program.

ghost use Rattle.std.specs.Prelude.{◌≡◌, ◌≤◌, ◌↔◌, ℕ, List, IsTrue, IfSome, IfNone, map, string_bytes};
ghost use Rattle.sf_words.specs.Numbers.{IsWithin};
ghost use Rattle.sf_jobs.specs.Seen.{team_seen};
ghost use Rattle.sf_jobs.specs.Team.{TeamOptions, TeamSays};

use crate::plan::is_value;
use crate::words::TeamWords;
use sf_lex::read_whole;

/// Whether a word is this text.
fn is_word(word: &String, text: &str) -> bool
    ensures { IsTrue result ↔ (string_bytes word.now ≡ text.now) }
{
    word.as_str() == text
}

/// How many workers there may be.
fn read_team(text: &str) -> Option<u16>
    ensures team { IfSome result (λ n. IsWithin text.now n (1, 16)) }
    ensures none { IfNone result ((n : ℕ) → IsWithin text.now n (1, 16) → ⊥) }
    ensures low { IfSome result (λ n. 1 ≤ n) }
    ensures high { IfSome result (λ n. n ≤ 16) }
{
    let team = read_whole(text.as_bytes(), 16)?;
    if team == 0 { None } else { Some(team as u16) }
}

/// What the words mean, those behind the name of the program: `--jobs FILE --team N`, and nothing else.
pub fn read_team_words(words: &[String]) -> Option<TeamWords<'_>>
    ensures means { IfSome result (λ w. TeamSays (map string_bytes words.now) (team_seen w)) }
    ensures none { IfNone result ((o : TeamOptions) → TeamSays (map string_bytes words.now) o → ⊥) }
{
    let [first, jobs, second, number] = words else {
        return None;
    };
    let jobs = jobs.as_str();
    if !(is_word(first, "--jobs") && is_word(second, "--team") && is_value(jobs)) {
        return None;
    }
    let Some(team) = read_team(number.as_str()) else {
        return None;
    };
    Some(TeamWords { jobs, team })
}
