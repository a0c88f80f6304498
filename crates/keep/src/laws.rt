//! What holds of kept rows, whatever they are. A law is the contract of a call that does nothing.

ghost use Rattle.std.specs.Prelude.{◌≡◌, ◌⊎◌, ℕ, List};
ghost use Rattle.edge_files.specs.declared.keeping.KeptRow.{KeptRow};
ghost use Rattle.plan_memory.specs.Memories.{MemoryRows};
ghost use Rattle.plan_text.specs.Lines.{IsBook};
ghost use Rattle.town.specs.Rows.{TownRows};
ghost use Rattle.keep.specs.{Fitting.AreRowsOf, Fitting.IsForeignAt, Kept.kept_rows, Worked.book, Worked.memories, Worked.rows};

/// Two persons, of whom the first has a plan with a score of -7 and the chosen one without a score: three rows, each with the name, the
/// number, whether it is the chosen one, the score, and the lines in plans.csv.
pub fn worked_rows()
    ensures { kept_rows book memories ≡ rows }
{}

/// Any rows fit a town whose lists of names are such, or are foreign to it, and not both. Those that fit are the rows of one list of
/// memories, and those that are foreign are so at one place.
pub fn rows_fit_or_are_foreign()
    ensures either { (T : TownRows) (rows : List KeptRow) → IsBook T.book
        → ((memories : List MemoryRows) × AreRowsOf T rows memories) ⊎ ((place : ℕ) × IsForeignAt T rows place) }
    ensures never_both { (T : TownRows) (rows : List KeptRow) (memories : List MemoryRows) (place : ℕ)
        → AreRowsOf T rows memories → IsForeignAt T rows place → ⊥ }
    ensures one_list { (T : TownRows) (rows : List KeptRow) (memories others : List MemoryRows) → IsBook T.book
        → AreRowsOf T rows memories → AreRowsOf T rows others → others ≡ memories }
    ensures one_place { (T : TownRows) (rows : List KeptRow) (a b : ℕ) → IsForeignAt T rows a → IsForeignAt T rows b → a ≡ b }
{}
