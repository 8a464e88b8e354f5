//! The texts stand for one design, and words and texts have one answer.

ghost use Rattle.std.specs.Prelude.{◌≡◌, ℕ, List, Option, Some, Ok, IsFalse};
ghost use Rattle.sf_io.specs.Outside.{Contents};
ghost use Rattle.sf_io.specs.declared.status.Status.{Status};
ghost use Rattle.sf_model.specs.declared.design.Design.{Design};
ghost use Rattle.sf_gsrc.specs.declared.output.GsrcBlocks.{GsrcBlocks};
ghost use Rattle.sf_options.specs.Options.{Command, DesignOptions, PlanOptions, WeightOptions};
ghost use Rattle.sf_words.specs.Meaning.{Means};
ghost use Rattle.sf_program.specs.Answer.{IsDone, RefusesWords};
ghost use Rattle.sf_program.specs.Complete.{IsOwnEnd, IsTaken};
ghost use Rattle.sf_program.specs.OneAnswer.{Answer, AskForOneWorker, AtMostOne, GivesOne, HasBlocksOf};
ghost use Rattle.sf_program.specs.OneAnswer.{IsAnswerTo, IsDoneBy, refusal};
ghost use Rattle.sf_designs.specs.Outcome.{IsRefusal, lost};
ghost use Rattle.sf_program.specs.Planned.{PlanRead};
ghost use Rattle.sf_designs.specs.Reading.{BlocksRead, DesignRead, GsrcRead, PartsRead};
ghost use Rattle.sf_designs.specs.Weighed.{WeighedParts};

use sf_certificate::{first_parts_are_one, full_parts_close};
use sf_curves::traces_are_one;
use sf_parts::designs_are_determined;
use sf_place::verdicts_are_one;
use sf_search::certificates_are_one;
use sf_soft_shapes::lists_are_determined;

/// On a shelf that tells what it holds, the named files stand for at most one design, or are refused for at
/// most one reason, and never both; a file is lost beside that only where any load may fail. The design has
/// a block for each block that the files name, under its name and in their order.
pub fn designs_are_one()
    ensures design { (contents : Contents) (o : DesignOptions) (w : WeightOptions) →
        GivesOne contents.may_fail (DesignRead (Some contents) o w) }
    ensures plan { (contents : Contents) (o : PlanOptions) →
        GivesOne contents.may_fail (PlanRead (Some contents) o) }
    ensures blocks { (contents : Contents) (o : DesignOptions) (w : WeightOptions) →
        (read : WeighedParts) (design : Design) →
        PartsRead (Some contents) o.per_unit o.input w.net_weights (Ok read) →
        DesignRead (Some contents) o w (Ok design) → HasBlocksOf read.parts.blocks design }
    ensures planned { (contents : Contents) (o : PlanOptions) (read : WeighedParts) (design : Design) →
        PartsRead (Some contents) o.design.per_unit o.design.input o.weights.net_weights (Ok read) →
        PlanRead (Some contents) o (Ok design) → HasBlocksOf read.parts.blocks design }
    ensures gsrc { (contents : Contents) (scale : ℕ) (name : List ℕ) (nets pl weights : Option (List ℕ)) →
        (out : GsrcBlocks) (read : WeighedParts) →
        BlocksRead (Some contents) scale name (Ok out) →
        GsrcRead (Some contents) scale name nets pl weights (Ok read) → read.parts.blocks ≡ out.blocks }
{
    lists_are_determined();
    designs_are_determined();
}

/// On a shelf that tells what it holds, words have at most one answer, unless they ask for a search by
/// several workers, for one that goes on, or for one that begins with a plan: its status, what is
/// stored and what is printed follow from the words and the texts. A
/// refusal is the only answer, however many workers the words ask for. So what a run does where nothing
/// fails is what any answer to its words says.
pub fn answers_are_one()
    ensures answer { (words : List (List ℕ)) (contents : Contents) →
        AskForOneWorker words → AtMostOne (IsAnswerTo words contents) }
    ensures refusal { (words : List (List ℕ)) (contents : Contents) (status : Status) (line : List ℕ) →
        (a : Answer) → IsRefusal status → IsAnswerTo words contents (refusal status line) →
        IsAnswerTo words contents a → a ≡ refusal status line }
    ensures done { (words : List (List ℕ)) (contents : Contents) (after : Option Contents) →
        (taken taken_then : Option (List ℕ)) (status : Status) (a : Answer) →
        AskForOneWorker words → IsAnswerTo words contents a →
        IsDone words (Some contents) after taken taken_then status →
        IsDoneBy a (Some contents) after taken taken_then status }
{
    designs_are_one();
    verdicts_are_one();
    traces_are_one();
    certificates_are_one();
    full_parts_close();
    first_parts_are_one();
}

/// On a shelf that tells what it holds, words whose texts every stage takes are answered by the command's
/// own statuses, and never refused: a plan that is the best, that none fits or that is open, a verdict, or
/// a curve. Where loads fail only at names without a text, none of their files is lost.
pub fn taken_texts_are_answered()
    ensures loaded { (words : List (List ℕ)) (contents : Contents) (command : Command) →
        Means words command → IsFalse contents.may_fail → IsTaken command contents →
        RefusesWords words (Some contents) lost → ⊥ }
    ensures answered { (words : List (List ℕ)) (contents : Contents) (command : Command) (a : Answer) →
        Means words command → IsTaken command contents → IsAnswerTo words contents a →
        IsOwnEnd command a.0 }
{}
