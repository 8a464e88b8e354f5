//! What was written is read again.

ghost use Rattle.std.specs.Prelude.{◌≡◌, ◌≤◌, ◌<◌, ◌^◌, ◌+◌, ◌++◌, ℕ, Bool, true, List, [], ◌∷◌, length};
ghost use Rattle.std.specs.Prelude.{Ok, Some};
ghost use Rattle.std.specs.Fmt.{decimal};
ghost use Rattle.sf_lex.specs.Text.{lines, words, is_line_feed, has_none};
ghost use Rattle.sf_lex.specs.Scan.{numbered, words_of_line, words_of_lines};
ghost use Rattle.sf_lex.specs.Number.{decimal_read};
ghost use Rattle.sf_lex.specs.Whole.{whole_read, plain_read};

/// A line that LF ends is the first line.
pub fn lines_are_read()
    ensures line { (line rest : List ℕ) → has_none is_line_feed line ≡ true
        → lines (line ++ 10 ∷ rest) ≡ line ∷ lines rest }
    ensures words { (n : ℕ) (line rest : List ℕ) → has_none is_line_feed line ≡ true
        → words_of_lines (numbered n (lines (line ++ 10 ∷ rest)))
        ≡ words_of_line (record { number = n; bytes = line })
        ++ words_of_lines (numbered (n + 1) (lines rest)) }
{}

/// A word that a blank ends is the first word, whatever counts as a blank.
pub fn words_are_read()
    ensures word { (blank : ℕ → Bool) (word rest : List ℕ) (b : ℕ) → 0 < length word
        → has_none blank word ≡ true
        → blank b ≡ true → words blank (word ++ b ∷ rest) ≡ word ∷ words blank rest }
    ensures last { (blank : ℕ → Bool) (word : List ℕ) → 0 < length word → has_none blank word ≡ true
        → words blank word ≡ word ∷ [] }
    ensures blank { (blank : ℕ → Bool) (b : ℕ) (rest : List ℕ) → blank b ≡ true
        → words blank (b ∷ rest) ≡ words blank rest }
{}

/// The digits of a number are read as that number.
pub fn numbers_are_read()
    ensures decimal { (n limit : ℕ) → n < 2 ^ 64 → n ≤ limit → decimal_read 1 limit (decimal n) ≡ Ok n }
    ensures whole { (n limit : ℕ) → n < 2 ^ 64 → n ≤ limit → whole_read limit (decimal n) ≡ Some n }
    ensures plain { (n limit : ℕ) → n < 2 ^ 64 → n ≤ limit → plain_read limit (decimal n) ≡ Some n }
{}
