// Laws of how a run ends.

ghost use Rattle.std.specs.Prelude.{◌≡◌, ◌≤◌, ◌<◌, ℕ, suc, List, [], length, Option};
ghost use Rattle.cq_words.specs.Asked.{Asked, Task};
ghost use Rattle.spec_numbers.specs.Texts.{Text};
ghost use Rattle.spec_text.specs.Numbers.{whole_text};
ghost use Rattle.spec_command.specs.Outcome.{gen_line};
ghost use Rattle.spec_command.specs.Query.{least};
ghost use Rattle.spec_command.specs.declared.endings.status.Status.{Status};
ghost use Rattle.spec_command.specs.declared.endings.status.Status.TheVariants.{Done};
ghost use Rattle.spec_command.specs.Causes.{Completeness, GenCompleteness};
ghost use Rattle.spec_command.specs.Endings.{Ends, IsLine};
ghost use Rattle.spec_command.specs.Generated.{GenEnds};
ghost use Rattle.spec_command.specs.Outside.{HasReadAll, Outside};

/// Where nothing stands in the way, a run that ends as its text and its counts say is whole.
pub fn completeness_follows()
    ensures run { Completeness }
    ensures generated { GenCompleteness }
{}

/// The line of an ending is one of its status.
pub fn statuses_have_their_lines()
    ensures { (o : Outside) (left : List ℕ) (asked : Option Task) (status : Status) (text line : Text) → Ends o left asked status text line
        → IsLine status line }
{}

/// The line of a run of `gen` that is done tells the least value of its query's last variable, and one answer.
pub fn a_line_tells_the_least_value()
    ensures { (k : ℕ) → k < 200 → (text line : Text) → GenEnds (suc k) Done text line → text ≡ gen_line (suc k) (whole_text (least k)) 1 }
{}

/// Of one byte of the input nothing is written, if no file is read: a clause or an error is decided only by a byte behind it.
pub fn one_byte_decides_nothing()
    ensures { (o : Outside) (a : Asked) (bytes : List ℕ) (text : Text) → a.files ≡ [] → length bytes ≤ 1 → HasReadAll o a bytes text
        → text ≡ [] }
{}
