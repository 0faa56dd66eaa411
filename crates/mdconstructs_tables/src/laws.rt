//! Laws about tables. Each is a function that does nothing; its contract is the law.

ghost use Rattle.std.specs.Prelude.{ℕ, Bool, List, Option};
ghost use Rattle.markdown_base.specs.declared.event.Event.{Event};
ghost use Rattle.markdown_base.specs.declared.state.Name.{Name};
ghost use Rattle.markdown_base.specs.declared.state.State.{State};
ghost use Rattle.markdown_tokenizer.specs.Alike.{LooksNoFurther};
ghost use Rattle.markdown_tokenizer.specs.Configuration.{Choice, Configuration, Local, Step};
ghost use Rattle.markdown_tokenizer.specs.Lawful.{IsLawful};
ghost use Rattle.markdown_tokenizer.specs.Plain.{plain};
ghost use Rattle.markdown_tokenizer.specs.Sight.{Sight};
ghost use Rattle.markdown_tokenizer.specs.Text.{Given, Text};
ghost use Rattle.mdconstructs_tables.specs.Over.{PickedPairsOver, PickedReadOver, RowsReadOver, TableReadsOver};
ghost use Rattle.mdconstructs_tables.specs.Calm.{Calmness, CalmCasesKeep, CalmRowsKeep};
ghost use Rattle.mdconstructs_tables.specs.Cases.{AreByBytes, AreOneByOne};
ghost use Rattle.mdconstructs_tables.specs.DeepLooks.{DeepLooksAreScans};
ghost use Rattle.mdconstructs_tables.specs.Fitting.{IsFit};
ghost use Rattle.mdconstructs_tables.specs.Folds.{BytesAreFolded};
ghost use Rattle.mdconstructs_tables.specs.Knowledge.{IsKnownThroughout, KnowsFalling, knowing_rules};
ghost use Rattle.mdconstructs_tables.specs.Late.{IsLate, late_rules};
ghost use Rattle.mdconstructs_tables.specs.LookKnowledge.{ChecksAreLooks};
ghost use Rattle.mdconstructs_tables.specs.Looks.{LooksAreScans, Plays};
ghost use Rattle.mdconstructs_tables.specs.NoFurther.{TestsLookNoFurther};
ghost use Rattle.mdconstructs_tables.specs.Numbers.{AreEnough, Price};
ghost use Rattle.mdconstructs_tables.specs.PlainTables.{IsPlainTable};
ghost use Rattle.mdconstructs_tables.specs.PlainWrites.{WritesPlain};
ghost use Rattle.mdconstructs_tables.specs.Plans.{IsSound, Plan, planned_rules};
ghost use Rattle.mdconstructs_tables.specs.Quiet.{QuietLooksEnd};
ghost use Rattle.mdconstructs_tables.specs.RowInvariant.{table_rules};
ghost use Rattle.mdconstructs_tables.specs.RowTest.{never};
ghost use Rattle.mdconstructs_tables.specs.Unlinked.{LinksNothing, unlinked_rules};
ghost use Rattle.mdconstructs_tables.specs.Rows.{Rows, Table};
ghost use Rattle.mdconstructs_tables.specs.Stretches.{StretchesAreRead};
ghost use Rattle.mdconstructs_tables.specs.Twins.{TwinsReadAlike};

/// A table's rules are lawful on every document if the table has no misfits, its own costs are enough, what each call writes first
/// leaves the place that is noted, and no state links or writes. They are lawful too if states write only what leaves nothing to resolve, or if choices end with `Ok` late:
/// behind the place where they were made.
///
/// `W` is the type of classes of bytes, `R` of resolvers, and `D` of what the machine keeps about a document.
pub fn fitting_tables_are_lawful<W, R, D>()
    ensures plain { (table : Table W R D) → IsFit table → IsPlainTable table → (g : Given) → IsLawful g (plain (table_rules table g)) }
    ensures writing { (table : Table W R D) → IsFit table → WritesPlain table → (g : Given) → IsLawful g (plain (table_rules table g)) }
    ensures late { (table : Table W R D) (early : Name → Option W → Bool) (falling : Name → Bool)
        → IsLate table early falling → WritesPlain table → (g : Given) → IsLawful g (plain (late_rules table early falling g)) }
{}

/// An author of a table may give numbers and prove no inequality: a table fits, and its choices end with `Ok` late, if each state
/// costs what its price says, the test names no state, and what each call writes first leaves the place that is noted. Where a number is too low, the test names the state, with what a row of
/// it takes and what it has.
pub fn numbers_are_enough<W, R, D>()
    ensures { (table : Table W R D) (in_run : W → Bool) (prices : List (Price W)) (early : Name → Option W → Bool) (falling : Name → Bool)
        → AreEnough table in_run prices early falling → IsLate table early falling }
{}

/// A table, and what its machine knows that the table does not say.
pub trait Knowledge {
    /// The type of classes of bytes.
    type Class;

    /// The type of resolvers.
    type Resolver;

    /// What the machine keeps about a document.
    type Document;

    ghost table: { Table Self.Class Self.Resolver Self.Document };

    ghost knows: { List Event → Local Self.Resolver Self.Document → List Choice → State → Type 0 };

    /// What the machine promises of its final events.
    ghost ends: { Given → Text → List Event → Type 0 };
}

/// A table's rules are lawful on every document if the table fits (it has no misfits, and its own costs are enough), its rows keep what the
/// machine knows, and that leads to what it promises of its final events. The own costs of all states fall the more was read, or
/// at least those of the states that attempts go on with after `Ok`: a look's cost need not.
pub fn knowing_tables_are_lawful<K: Knowledge>()
    ensures falling { (falling : Name → Bool) → IsLate K.table never falling → KnowsFalling K.table K.knows falling
        → IsKnownThroughout K.table K.knows K.ends → (g : Given) → IsLawful g (knowing_rules K.table K.knows K.ends g) }
    ensures fitting { IsFit K.table → IsKnownThroughout K.table K.knows K.ends → (g : Given) → IsLawful g (knowing_rules K.table K.knows K.ends g) }
{}

/// The plan of a machine: its table, which states end choices late, what the machine knows that the table does not say, its
/// resolvers, and what it promises of its final events.
pub trait Planned {
    /// The type of classes of bytes.
    type Class;

    /// The type of resolvers.
    type Resolver;

    /// What the machine keeps about a document.
    type Document;

    ghost plan: { Plan Self.Class Self.Resolver Self.Document };
}

/// A plan's rules are lawful on every document if it is sound: its table passes the tests; starts, feeding, rows, ends of choices and
/// pieces keep what the machine knows; and each run of a resolver keeps what leads to edits that can be made, and to what the machine
/// promises. Choices that end with `Ok` late, links, edits, resolvers and what is known of the document, its options and the text may all
/// stand in one plan. The laws above are of plans that have less.
pub fn planned_machines_are_lawful<P: Planned>()
    ensures { IsSound P.plan → (g : Given) → IsLawful g (planned_rules P.plan g) }
{}

/// A table that links no events to one another has lawful rules if it fits, and no write registers a resolver or makes an edit. Its
/// events may be chunks, each alone, and it may make choices: what such a machine knows is the same for all tables, and is proved once.
pub fn unlinked_tables_are_lawful<W, R, D>()
    ensures { (table : Table W R D) → IsFit table → LinksNothing table → (g : Given) → IsLawful g (unlinked_rules table g) }
{}

/// A table, what its machine knows, and what leaves that as it is.
pub trait Calm {
    /// The type of classes of bytes.
    type Class;

    /// The type of resolvers.
    type Resolver;

    /// What the machine keeps about a document.
    type Document;

    ghost table: { Table Self.Class Self.Resolver Self.Document };

    ghost knows: { List Event → Local Self.Resolver Self.Document → List Choice → State → Type 0 };

    /// Which writes are harmless.
    ghost harmless: { (Sight → Configuration Self.Resolver Self.Document → Local Self.Resolver Self.Document) → Type 0 };

    ghost calmness: { Calmness Self.Resolver Self.Document };
}

/// A state keeps what the machine knows if its rows are calm: they make no choice, link no events to one another, and write only
/// what is harmless. It is one test for each class of what waits, or for each case by which the rows are given.
pub fn calm_rows_keep_what_is_known<C: Calm>()
    ensures rows { CalmRowsKeep C.table C.knows C.harmless C.calmness }
    ensures cases { CalmCasesKeep C.table C.knows C.harmless C.calmness }
{}

/// What a table reads without events, from any of its states on, is a function of the bytes that are left and of what states
/// share: its look. Reading on from the state is reading on from where the look ends, in any machine that does at the table's
/// names what the table says. A call that makes an event, a link or a choice is no part of a look, so nothing is asked of rows.
pub fn looks_are_scans<W, R, D>()
    ensures { (table : Table W R D) (g : Given) (text : Text) (step : Sight → Configuration R D → Name → Step R D)
        → Plays table g step → LooksAreScans table g text step }
{}

/// What a table reads from any of its states on, while its states make no choice, is a function of the bytes that are left, the place
/// behind the byte before them, and the configuration: its stretch, with its events. It is over before the call of a state that makes a
/// choice, or of one that is named. Reading on from the state is reading on from where the stretch ends.
pub fn stretches_are_read<W, R, D>()
    ensures { (table : Table W R D) (g : Given) (text : Text) (step : Sight → Configuration R D → Name → Step R D)
        → Plays table g step → StretchesAreRead table g text step }
{}

/// So is a look with checks in it, and with checks in these, as deep as is asked: a check looks on from its place, goes back there, and the
/// look goes on with what the check says.
pub fn deep_looks_are_scans<W, R, D>()
    ensures { (table : Table W R D) (g : Given) (text : Text) (step : Sight → Configuration R D → Name → Step R D)
        → Plays table g step → DeepLooksAreScans table g text step }
{}

/// A look ends with `Ok` or `Nok` if the test names no state of it as loud: its states only write, read bytes, and go on among
/// themselves. It takes at most as many calls at each place as the states have ranks.
pub fn quiet_looks_end<W, R, D>()
    ensures { (table : Table W R D) → QuietLooksEnd table }
{}

/// Rows see the bytes that were read: if a state writes, at each byte, the same fold of the byte that waits, what states share
/// behind the bytes is the fold over them. So a row knows a name, or the end of one, without a state for each of its letters.
pub fn states_fold_bytes<W, R, D>()
    ensures { (table : Table W R D) → BytesAreFolded table }
{}

/// The machine of a table looks no further than the byte that waits, if none of its tests does: what it read of a document need not be
/// read again in another one that begins alike. Of a document a test may take the options, and the bytes up to the byte that waits.
pub fn tables_look_no_further<W, R, D>()
    ensures table { (table : Table W R D) → TestsLookNoFurther table → LooksNoFurther (λ g. plain (table_rules table g)) }
    ensures late { (table : Table W R D) (early : Name → Option W → Bool) (falling : Name → Bool)
        → TestsLookNoFurther table → LooksNoFurther (λ g. plain (late_rules table early falling g)) }
{}

/// So does the machine of a table that knows more than its table says.
pub fn knowing_tables_look_no_further<K: Knowledge>()
    ensures { TestsLookNoFurther K.table → LooksNoFurther (knowing_rules K.table K.knows K.ends) }
{}

/// So does the machine of a plan.
pub fn planned_machines_look_no_further<P: Planned>()
    ensures { TestsLookNoFurther P.plan.table → LooksNoFurther (planned_rules P.plan) }
{}

/// A property of classes of bytes and of their rows, as that a row costs no more than its state says.
pub trait Property {
    /// The type of classes of bytes.
    type Class;

    /// The type of resolvers.
    type Resolver;

    /// What the machine keeps about a document.
    type Document;

    ghost holds: { Self.Class → Rows Self.Resolver Self.Document → Type 0 };
}

/// If the rows of a state are given by tests of classes, a property is shown once for each case and once for the rest, however many
/// classes there are.
pub fn cases_are_one_by_one<P: Property>()
    ensures { AreOneByOne P.holds }
{}

/// If each test of classes is a test of bytes, the rows of a byte are those of the first test that it passes. So what is proved of
/// bytes names no class.
pub fn cases_are_by_bytes<W, R, D>()
    ensures { (class : ℕ → W) → AreByBytes R D class }
{}

/// What is known where looks may wait.
pub trait Looking {
    /// The type of resolvers.
    type Resolver;

    /// What the machine keeps about a document.
    type Document;

    /// Whether a state may be returned in a look: it is one of its states, or `Ok` or `Nok`.
    ghost looking: { State → Bool };

    /// What is known at a state outside of looks.
    ghost known: { State → List Event → Local Self.Resolver Self.Document → Type 0 };
}

/// Looks may wait in looks: all choices that wait are checks that take no event away, and what is known is what the outermost goes on
/// with. So a machine that knows something (`Knowledge`) may look within a look.
pub fn checks_are_looks<L: Looking>()
    ensures { ChecksAreLooks L.looking L.known }
{}

/// A state of a table reads over a byte (`reads_over` of `Machine`) if its rows there consume it, do nothing else, and return `Next` of
/// the same name, whatever the previous byte was. The table writes nothing first. So it does too where tests pick such a row (`picked`). It notes
/// a byte and reads over it and the one behind it (`notes_over`) if its rows note the first, consume it, and go on with a state whose rows
/// consume the second and go back (`pairs`).
pub fn rows_read_over<W, R, D>()
    ensures steps { RowsReadOver W R D }
    ensures picked { PickedReadOver W R D }
    ensures pairs { PickedPairsOver W R D }
    ensures rules { TableReadsOver W R D }
{}

/// What a table reads that writes nothing first, its twin reads too that writes `size` first, as to count its calls: in as many calls, and all
/// but `size` is the same. No row looks at `size` or writes it. So calls can be counted in a proof, and no call need count them.
pub fn twins_read_alike<W, R, D>()
    ensures { TwinsReadAlike W R D }
{}
