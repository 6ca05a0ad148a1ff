//! Theorems on the definitions alone.
//!
//! Each theorem is the contract of a function that does nothing at run time: a call gives the prover the theorem at the
//! call site.
ghost use Rattle.std.specs.Prelude.{ℕ, ◌<◌, ℤ, List, replicate};
ghost use Rattle.rrd_spec.specs.Names.{Cell, Function, Part, nothing};
ghost use Rattle.rrd_spec.specs.Words.{ArchiveStaysValid, PartsGrow, StaysValidFor, StaysValid, CreatedIsValid, AreKept, MovesListed, MovesListedByNumber, ResizeChanges, ResizeFits, TuneAdds, TuneChanges, TuneRemoves, CommandsGoOn, Moves, PassesAll, EntryFits, JournalLeavesValid, JournalParts, JournalsJoin, ComesBack, RunsAgree, ActsOn, Begins, DatabaseStays, RevertStays, RevertTakesBack, RunsStay, GoesOnListed, StaysAsItIs, GoesOn, GoesOnFromContent, StaysBase, PassesWithin, PassesInPieces, SampledPasses, Rule, Rra, Content, Event, Reading, RowsComeBack, ShowsByAge, IsListed, IsListedByNumber, ListsByNumber, ShowsByTime, ShowsCells, DatabaseChange, Entry, Filed, FiledOnce, RowsFiledOnce, FiledOutline, JournalTakes, JournalTook, OutlineFollows, OutlineIsNeeded, OutlineSuffices, OutlinesAreNeeded, OutlinesSuffice, AddChanges, BlankAtFirst, CutsLives, RemoveChanges, Limits, AsManyCells, CellStandsInSlot, CellStaysInSlot, KeepsRow, PlaceHasSlot, PlacesDiffer, PutsBlock, PutsCell, PutsRow, ShowsInPlace, SlotHasPlace, StandsInPlace, StaysInSlot, UpdateIsLater, SecondsOver, StepsInPieces, StepsOver, StepsWithin, ContentIsWithin, DatabaseIsWithin, EntryIsWithin, FirstTellsNoArchive, JournalIsWithin, Action, Stored, State, AreParts, CreateSpec, Change, DsDef, RraDef, Tuning, Given, Update, Version};
ghost use Rattle.rrd_spec.specs.Examples.Histories as worked;
ghost use Rattle.rrd_spec.specs.Examples.Commands as commands;
ghost use Rattle.rrd_spec.specs.Examples.Creates as creates;
ghost use Rattle.rrd_spec.specs.Examples.Fetches as fetches;
ghost use Rattle.rrd_spec.specs.Examples.Resizes as resizes;
ghost use Rattle.rrd_spec.specs.Examples.Archives as archives;

use rrd_fold::laws::one_cell_alone;

/// Theorem: a list cut in two makes the same groups as the whole list.
///
/// The second part of the list continues the group that the first part left unfinished.
pub fn groups_in_pieces<A, P, B>()
    ensures { (rule : Rule A P B) (before : ℕ) (begun : P) (xs ys : List A) →
        0 < rule.size → GoesOn rule before begun xs ys }
{}

/// Theorem: a content without an event stays unchanged.
pub fn content_stays_without_events()
    ensures { (base : Content) → StaysAsItIs base }
{}

/// Theorem: a history may be cut anywhere, and the content at the cut is the base of the rest.
///
/// The theorem is stated for rows by their times, and for rows as lists.
pub fn content_goes_on()
    ensures by_time { (base : Content) (first second : List Event) → GoesOnFromContent base first second }
    ensures by_list { (base : Content) (first second : List Event) → GoesOnListed base first second }
{}

/// Theorem: the content of a history on a base is a base again.
pub fn stays_base()
    ensures { (base : Content) (events : List Event) → StaysBase base events }
{}

/// Theorem: a sample has the effect of its rates in each second of its interval.
pub fn sample_passes()
    ensures { (base : Content) (reading : Reading) → SampledPasses base reading }
{}

/// Theorem: seconds may pass in two parts.
pub fn seconds_pass_in_pieces()
    ensures { (base : Content) (xs ys : List (List Cell)) → PassesInPieces base xs ys }
{}

/// Theorem: seconds that do not finish their step change only the partial steps and the last time.
pub fn seconds_pass_within_a_step()
    ensures { (base : Content) (seconds : List (List Cell)) → PassesWithin base seconds }
{}

/// Theorem: many seconds with the same rates may pass at once.
///
/// The seconds are those left of the step in progress, and any number of whole steps.
pub fn seconds_pass_at_once()
    ensures { (base : Content) (left count : ℕ) (rates : List Cell) → SecondsOver base left count rates }
{
    one_cell_alone();
}

/// Theorem: steps may pass in two parts, and many equal steps may pass at once.
///
/// Steps that do not finish the row of an archive pass at once; so do one step and any number of equal steps after it,
/// across the ends of rows.
pub fn steps_pass_at_once()
    ensures pieces { (sources before : ℕ) (archive : Rra) (xs ys : List (List Cell)) →
        StepsInPieces sources before archive xs ys }
    ensures within { (sources before : ℕ) (archive : Rra) (steps : List (List Cell)) →
        StepsWithin sources before archive steps }
    ensures over { (sources before count : ℕ) (archive : Rra) (first then : List Cell) →
        StepsOver sources before count archive first then }
{
    one_cell_alone();
}

/// Theorem: seconds leave a valid content valid, and steps leave a valid archive valid.
pub fn seconds_stay_valid()
    ensures content { (base : Content) (seconds : List (List Cell)) → StaysValidFor base seconds }
    ensures archive { (sources before : ℕ) (steps : List (List Cell)) (archive : Rra) →
        ArchiveStaysValid sources before steps archive }
{}

/// Theorem: parts of no cell are within their bounds, and stay so with one more cell each.
pub fn parts_stay_bounded()
    ensures none { (function : Function) (sources : ℕ) → AreParts function sources 0 (replicate sources nothing) }
    ensures one_more { (function : Function) (sources n : ℕ) (parts : List Part) (row : List Cell) →
        PartsGrow function sources n parts row }
{}

/// Theorem: each data source accepts the raw value that it keeps of a given value.
pub fn raw_values_are_accepted()
    ensures { (given : DsDef → Given) (sources : List DsDef) → AreKept given sources }
{}

/// Theorem: the rows that an update drops, followed by the rows that it leaves, are the earlier rows.
pub fn rows_come_back()
    ensures { (base : Content) (index : ℕ) (archive : Rra) (readings : List Reading) →
        RowsComeBack base index archive readings }
{}

/// Theorem: an archive shows each row by its age, 0 for the newest.
///
/// The archive shows the rows that have had an index in it at every moment; the others are unknown.
pub fn rows_by_age()
    ensures { (rows lasting : ℕ) (all : List (List Cell)) (unknown : List Cell) → ShowsByAge rows lasting all unknown }
{}

/// Theorem: each archive shows at each time the row of that time, and a content each cell of it.
pub fn cells_by_time()
    ensures rows { (base : Content) (events : List Event) → ShowsByTime base events }
    ensures cells { (base : Content) (events : List Event) → ShowsCells base events }
{}

/// Theorem: slots and row indexes correspond one to one, and a content shows each row at its time.
///
/// A row that is put at the index of a slot is in that slot, and the other slots keep their rows.
pub fn rows_stand_in_slots()
    ensures place { (resolution last rows slot : ℕ) → SlotHasPlace resolution last rows slot }
    ensures slot { (resolution last rows place : ℕ) → PlaceHasSlot resolution last rows place }
    ensures differ { (resolution last rows slot other : ℕ) → PlacesDiffer resolution last rows slot other }
    ensures row { (resolution last : ℕ) (rows : List (List Cell)) (slot : ℕ) →
        StandsInPlace resolution last rows slot }
    ensures shown { (content : Content) (archive : Rra) (place : ℕ) → ShowsInPlace content archive place }
    ensures put { (resolution last : ℕ) (rows : List (List Cell)) (slot : ℕ) (row : List Cell) →
        PutsRow resolution last rows slot row }
    ensures kept { (resolution last : ℕ) (rows : List (List Cell)) (slot : ℕ) (row : List Cell) (other : ℕ) →
        KeepsRow resolution last rows slot row other }
{}

/// Theorem: an accepted update leads to a later time, and each archive keeps its newest rows, which are now its oldest.
pub fn updates_keep_newest_rows()
    ensures { (base : Content) (update : Update) → UpdateIsLater base update }
{}

/// Theorem: after an update each row that it did not finish is in the slot in which it was before, and so are its cells.
///
/// An update finishes the newest rows, as many as it saved. So the slots of all others stay as they are in a file.
pub fn rows_stay_in_slots()
    ensures row { (resolution from to : ℕ) (saved rows : List (List Cell)) (slot : ℕ) →
        StaysInSlot resolution from to saved rows slot }
    ensures cell { (resolution from to sources : ℕ) (saved rows : List (List Cell)) (slot source : ℕ) (or : Cell) →
        CellStaysInSlot resolution from to sources saved rows slot source or }
{}

/// Theorem: the cells of an archive in slot order are those of its rows, one for each data source.
///
/// There are as many cells as rows times data sources. Putting a row at the index of a slot changes one block of the
/// cells; putting a cell changes only that cell.
pub fn cells_stand_in_slots()
    ensures as_many { (resolution last sources : ℕ) (rows : List (List Cell)) →
        AsManyCells resolution last sources rows }
    ensures cell { (resolution last sources : ℕ) (rows : List (List Cell)) (slot source : ℕ) (or : Cell) →
        CellStandsInSlot resolution last sources rows slot source or }
    ensures row_put { (resolution last sources : ℕ) (rows : List (List Cell)) (slot : ℕ) (row : List Cell) →
        PutsBlock resolution last sources rows slot row }
    ensures cell_put { (resolution last sources : ℕ) (rows : List (List Cell)) (slot source : ℕ) (cell : Cell) →
        PutsCell resolution last sources rows slot source cell }
{}

/// Theorem: equal lists in a file mean equal rows, and equal databases.
///
/// Rows are equal if their cells in slot order are, and valid databases if their lists in a file are.
pub fn databases_are_filed_once()
    ensures rows { (resolution last sources : ℕ) (rows others : List (List Cell)) →
        RowsFiledOnce resolution last sources rows others }
    ensures databases { (limits : Limits) (version : Version) (d other : Stored) →
        FiledOnce limits version d other }
{}

/// Theorem: the rows of a content as lists are its rows by their times.
///
/// The theorem holds whatever archives are added and removed, and after an accepted command. If no archive is added or
/// removed, the lists may be those of the base's archives, number by number.
pub fn content_is_listed()
    ensures events { (base : Content) (events : List Event) → IsListed base events }
    ensures command { (base : Content) (command : DatabaseChange) → MovesListed base command }
    ensures events_by_number { (base : Content) (events : List Event) → IsListedByNumber base events }
    ensures command_by_number { (base : Content) (command : DatabaseChange) → MovesListedByNumber base command }
{}

/// Theorem: the steps and the rows of a history, as lists, are the steps and rows of their numbers.
pub fn steps_and_rows_by_number()
    ensures { (base : Content) (archive : Rra) (events : List Event) → ListsByNumber base archive events }
{}

/// Theorem: one more accepted command moves the content once more.
pub fn one_more_moves()
    ensures { (base : Content) (commands : List DatabaseChange) (command : DatabaseChange) → Moves base commands command }
{}

/// Theorem: a history of accepted commands may be cut anywhere.
pub fn commands_go_on()
    ensures { (base : Content) (first second : List DatabaseChange) → CommandsGoOn base first second }
{}

/// Theorem: an accepted command passes each check.
pub fn accepted_passes()
    ensures { (base : Content) (command : DatabaseChange) → PassesAll base command }
{}

/// Theorem: a tune without an archive changes only the settings and the raw values of data sources.
pub fn tune_changes_sources()
    ensures { (base : Content) (tuning : Tuning) → TuneChanges base tuning }
{}

/// Theorem: an accepted tune of an archive adds a new one, or removes an existing one, and changes nothing else.
pub fn tune_changes_archives()
    ensures added { (base : Content) (tuning : Tuning) (def : RraDef) → TuneAdds base tuning def }
    ensures removed { (base : Content) (tuning : Tuning) (number : ℕ) → TuneRemoves base tuning number }
{}

/// Theorem: an accepted resize leaves an existing archive its newest rows, and changes nothing else.
///
/// If the archive has fewer rows than it shall have, unknown rows precede the oldest.
pub fn resize_changes_rows()
    ensures fits { (base : Content) (archive : ℕ) (change : Change) (rows : ℕ) →
        ResizeFits base archive change rows }
    ensures changes { (base : Content) (archive : ℕ) (change : Change) (rows : ℕ) →
        ResizeChanges base archive change rows }
{}

/// Theorem: the entry of an accepted command fits the content after the command.
pub fn entry_fits()
    ensures { (base : Content) (command : DatabaseChange) → EntryFits base command }
{}

/// Theorem: the entry of an accepted command undoes the command.
pub fn commands_come_back()
    ensures { (base : Content) (command : DatabaseChange) → ComesBack base command }
{}

/// Theorem: after any actions the content is that of the survivors, and the journal has their entries.
pub fn runs_agree()
    ensures { (base : Content) (brought : List Entry) (actions : List Action) → RunsAgree base brought actions }
{}

/// Theorem: a new database is valid.
pub fn created_is_valid()
    ensures { (spec : CreateSpec) → CreatedIsValid spec }
{}

/// Theorem: an accepted command leaves a valid content valid.
pub fn stays_valid()
    ensures { (base : Content) (command : DatabaseChange) → StaysValid base command }
{}

/// Theorem: an accepted command, and a revert, leave a valid database with its journal valid.
pub fn database_stays()
    ensures changed { (now : Content) (journal : List Entry) (command : DatabaseChange) →
        DatabaseStays now journal command }
    ensures reverted { (now : Content) (journal : List Entry) → RevertStays now journal }
{}

/// Theorem: the limits of each version are within the limits of every database.
pub fn versions_stay_within()
    ensures content { (version : Version) (content : Content) → ContentIsWithin version content }
    ensures entry { (version : Version) (now : Content) (entry : Entry) → EntryIsWithin version now entry }
    ensures journal { (version : Version) (now : Content) (journal : List Entry) →
        JournalIsWithin version now journal }
    ensures database { (version : Version) (now : Content) (journal : List Entry) →
        DatabaseIsWithin version now journal }
{}

/// Theorem: a file of version 1 has no entry for an archive that was added or removed.
pub fn version_1_has_no_archive_entries()
    ensures { (f : Filed) → FirstTellsNoArchive f }
{}

/// Theorem: a revert restores the content and the journal from before an accepted command.
///
/// The oldest entry of a full journal is lost.
pub fn revert_takes_back()
    ensures { (now : Content) (journal : List Entry) (command : DatabaseChange) → RevertTakesBack now journal command }
{}

/// Theorem: a valid database represents the state that starts with it, and brings its journal along.
pub fn database_begins()
    ensures { (base : Content) (brought : List Entry) → Begins base brought }
{}

/// Theorem: if a database represents a state, it does so after one more action too.
pub fn action_goes_on()
    ensures { (state : State) (kept : Stored) (action : Action) → ActsOn state kept action }
{}

/// Theorem: undoing entries changes the outline of a content by the entries alone.
///
/// The lists of a database in a file have the outline of its content.
pub fn outlines_follow()
    ensures undone { (now : Content) (journal : List Entry) → OutlineFollows now journal }
    ensures filed { (version : Version) (d : Stored) → FiledOutline version d }
{}

/// Theorem: the outline of a valid content alone decides which entry fits and leaves a valid content.
pub fn outlines_judge_entries()
    ensures suffices { (limits : Limits) (now : Content) (entry : Entry) → OutlineSuffices limits now entry }
    ensures needed { (limits : Limits) (now : Content) (entry : Entry) → OutlineIsNeeded limits now entry }
{}

/// Theorem: older entries are a journal of the content that the newer entries leave, which is valid.
pub fn journals_in_pieces()
    ensures leaves { (limits : Limits) (now : Content) (journal : List Entry) → JournalLeavesValid limits now journal }
    ensures join { (limits : Limits) (now : Content) (newer older : List Entry) → JournalsJoin limits now newer older }
    ensures parts { (limits : Limits) (now : Content) (newer older : List Entry) → JournalParts limits now newer older }
{}

/// Theorem: outlines alone decide which lists of entries are a journal of a valid content.
///
/// Outlines also decide which entry a journal takes after all others.
pub fn outlines_judge_journals()
    ensures takes { (limits : Limits) (now : Content) (journal : List Entry) (entry : Entry) →
        JournalTakes limits now journal entry }
    ensures took { (limits : Limits) (now : Content) (journal : List Entry) (entry : Entry) →
        JournalTook limits now journal entry }
    ensures suffice { (limits : Limits) (now : Content) (journal : List Entry) → OutlinesSuffice limits now journal }
    ensures needed { (limits : Limits) (now : Content) (journal : List Entry) →
        OutlinesAreNeeded limits now journal }
{}

/// Theorem: a run of actions on a valid database is that of its survivors, and leaves a valid database.
pub fn runs_stay()
    ensures { (base : Content) (brought : List Entry) (actions : List Action) → RunsStay base brought actions }
{}

/// Theorem: the definitions compute the worked examples of histories and commands.
pub fn examples()
    ensures two { worked.TwoSamples }
    ensures heartbeat { worked.Heartbeat }
    ensures shared { worked.Shared }
    ensures shrunk { worked.Shrunk }
    ensures manual { worked.Manual }
    ensures by_time { worked.ByTime }
    ensures shrink_and_grow { commands.ShrinkAndGrow }
    ensures two_places { commands.TwoPlaces }
    ensures refused_whole { commands.RefusedWhole }
    ensures retyped { commands.Retyped }
    ensures bounded { commands.Bounded }
{}

/// Theorem: the definitions compute the worked examples of new databases, row times, fetches and oldest rows.
pub fn examples_by_time()
    ensures created { creates.Created }
    ensures resizing { resizes.Resizing }
    ensures fetched { fetches.Fetched }
    ensures oldest { fetches.Oldest }
{}

/// Theorem: the definitions compute the worked examples of archives that are added and removed.
pub fn examples_of_archives()
    ensures added { archives.TwoAdded }
    ensures removed { archives.OneRemoved }
    ensures limits { archives.AtTheLimits }
    ensures versions { archives.InVersions }
{}

/// Theorem: a history in which archives are added and removed may be cut anywhere, its rows as lists.
///
/// An archive that is added follows the others, and shows nothing of the time before it. An archive that is removed
/// changes nothing else.
pub fn archives_come_and_go()
    ensures cut { (base : Content) (es : List Event) → CutsLives base es }
    ensures add { (base : Content) (def : RraDef) → AddChanges base def }
    ensures remove { (base : Content) (number : ℕ) → RemoveChanges base number }
    ensures blank { (sources step last : ℕ) (def : RraDef) (time : ℤ) → BlankAtFirst sources step last def time }
{}
