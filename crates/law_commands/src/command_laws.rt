//! Laws of what the words and the files come to.

ghost use Rattle.law_commands.specs.Commands.Complete.{CapturesAreMade, CapturesArePrepared, CapturesAreReplayed, CapturesAreTried, DivergencesAreAccepted, ErrandsEndSo, LegalCapturesArePrepared, LegalCapturesAreReplayed, RegistersStayGood, ReportsAreRegistered, RunsAreCompared, RunsAreListed, SentRunsEndSo, StartsAreServed};
ghost use Rattle.law_commands.specs.Commands.Ends.{JournalsTellTheirHistory, OneIsTold, PlansTellTheirHistory, QuietRunsCarryTables, ReadsMeetTheirCommits, RunsAgainAreQuiet, SentJournalsTellTheirHistory, SentPlansTellTheirHistory, SentReadsMeetTheirCommits, TablesAreCarried, ToldIsQuiet, TwinsAreQuiet};
ghost use Rattle.law_commands.specs.Commands.Headline.{RunsKeepThePromise};
ghost use Rattle.law_commands.specs.Commands.Reports.{ReportsAreSmall, ReportsAreWhole, RunsAreRegistered, SentReportsAreRegistered, WrittenReportsAreRegistered};
ghost use Rattle.law_commands.specs.Commands.Served.{ServedCapturesAreLegal, ServedCapturesAreNotBad, ServedCapturesAreNotBadToPrepare, ServedCapturesArePrepared, ServedCapturesAreReplayed};
ghost use Rattle.law_commands.specs.Commands.Statuses.{FailuresEndSo, TasksEndSo};

use divergence_cause::laws::{one_list_of_causes, unchanged_servers_upgrade_nothing};
use fence_law::laws::{one_list_of_plain_reads, plain_reads_are_same};

/// The headline, from its beginning to its end, of files that are told: where `run` without a target ends with 0 or 1, as the clause `ends` of
/// `replay_main` says, the files are a legal capture, and what was written is the one replay of it.
pub fn headline()
    ensures { RunsKeepThePromise }
{}

/// Completeness of `run`: where the words are its command, the files of the capture are there, each within the limit of one file
/// and all within that of a capture, the remap file says services and the change file makes a target, each where one is named, and
/// the calls are accepted, the calls are to be replayed: on the desk's own server, or against the one at the port that is named. By
/// the clause `each` of `replay_main` the command then ends with its work done, or by a fault or want of memory; against another
/// server by a failure of the link too, or by a difference that this program alone can bring about.
pub fn captures_are_replayed()
    ensures { CapturesAreReplayed }
{}

/// The same of `prepare`.
pub fn captures_are_prepared()
    ensures { CapturesArePrepared }
{}

/// How a replay against another server ends, whatever the capture is: where no device failed and the
/// dial counts no fault, by 0, 1, 6 or 9.
pub fn sent_runs_end_so()
    ensures { SentRunsEndSo }
{}

/// And in the words of a legal capture alone: where some order of the calls is one, they are replayed, by stamp.
pub fn legal_captures_are_replayed()
    ensures { LegalCapturesAreReplayed }
{}

/// The same of `prepare`.
pub fn legal_captures_are_prepared()
    ensures { LegalCapturesArePrepared }
{}

/// The same of `serve`: where the file of the start is there, within the limit of one file, and is one, its start is served.
pub fn starts_are_served()
    ensures { StartsAreServed }
{}

/// The same of `generate` and `trial`, of which the words alone decide.
pub fn captures_are_made_and_tried()
    ensures made { CapturesAreMade }
    ensures tried { CapturesAreTried }
{}

/// The same of the register of runs. Where the report of `register` is there, within the limit of one file, and is one, it is to be
/// registered; of the other three commands the words alone decide. Where the keeper tells reports alone and no device failed, `register`
/// gives 0, 6 or 12, `runs` 0 or 6, `accept` 0, 6, 11 or 14, and `compare` 0, 1, 6, 11 or 15.
pub fn runs_are_asked_for()
    ensures registered { ReportsAreRegistered }
    ensures listed { RunsAreListed }
    ensures accepted { DivergencesAreAccepted }
    ensures compared { RunsAreCompared }
    ensures end { ErrandsEndSo }
{}

/// A register of reports stays one, whatever command is run, whatever its files are, and however it ends: the clause `line` of
/// `replay_main` says what a command may come to.
pub fn registers_stay_good()
    ensures { RegistersStayGood }
{}

/// With which statuses each command may end, where the files are told and no device failed, so that by the clause `causes` of `replay_main` the
/// status is not 5: `run` with 0, 1 or 6, and against another server where no line fails with 9 too; `serve` with 0, 6 or 9; `prepare`,
/// `generate`, `trial`, `page` and `show` with 0 or 6; and the commands of the register as `runs_are_asked_for` says, `register` whatever the keeper tells. What is
/// refused ends with its own status, or with 6.
pub fn may_end()
    ensures done { TasksEndSo }
    ensures refused { FailuresEndSo }
{}

/// What `run` writes as its report is the text of a report, with its counts those of its lines, within the limit of a file: so
/// `register` takes it, behind the run and wherever it is put, and never tells it as a bad report or as too long. Behind a run with a
/// target it takes it too.
pub fn reports_of_runs_are_registered()
    ensures small { ReportsAreSmall }
    ensures whole { ReportsAreWhole }
    ensures registered { WrittenReportsAreRegistered }
    ensures behind { RunsAreRegistered }
    ensures sent { SentReportsAreRegistered }
{}

/// The journal that is written tells one history: the one that the replay had, that is reported on and that the other files are of; and
/// so with a target. Of a history there is one list of plain reads and one of causes to tell.
pub fn journals_tell_their_history()
    ensures journal { JournalsTellTheirHistory }
    ensures sent { SentJournalsTellTheirHistory }
    ensures plan { PlansTellTheirHistory }
    ensures sent_plan { SentPlansTellTheirHistory }
    ensures told { OneIsTold }
{
    one_list_of_plain_reads();
    one_list_of_causes();
}

/// A run that does again what the capture did, in its order, from its start and by its services, prints that no call differs; each
/// reply of its journal is the captured one, and it ends in the captured state, whose tables it writes.
pub fn runs_again_are_quiet()
    ensures { RunsAgainAreQuiet }
{}

/// In the captured order and in the order of commits, the tables that are written are the captured ones, each row number and each id
/// replaced by the one that stands for it in the replay, where no commit differs; and so wherever no call differs.
pub fn tables_are_carried()
    ensures carried { TablesAreCarried }
    ensures quiet { QuietRunsCarryTables }
{}

/// In the modes in which a numbered commit waits for every call before it, each call is answered where of the numbered commits just
/// those are answered that it saw when it was captured.
pub fn reads_meet_their_commits()
    ensures { ReadsMeetTheirCommits }
{}

/// And so against another server, whatever it answers.
pub fn sent_reads_meet_their_commits()
    ensures { SentReadsMeetTheirCommits }
{}

/// A call whose session sees in a run what it saw in the capture, but for ids, is named by no line of the report, where both servers have one
/// schema.
pub fn twins_are_quiet()
    ensures { TwinsAreQuiet }
{}

/// The calls that `fence.txt` names are the same, and `causes.csv` names no upgrade where the replay has the captured schema.
pub fn told_is_quiet()
    ensures { ToldIsQuiet }
{
    plain_reads_are_same();
    unchanged_servers_upgrade_nothing();
}

/// What `serve` writes is a legal capture, as `run` and `prepare` read it, as long as it is within the limits of files: they do not refuse it,
/// and by stamp it is all that was recorded. Of any size, neither calls it a bad capture.
pub fn served_captures_are_legal()
    ensures legal { ServedCapturesAreLegal }
    ensures replayed { ServedCapturesAreReplayed }
    ensures prepared { ServedCapturesArePrepared }
    ensures not_bad { ServedCapturesAreNotBad }
    ensures not_bad_to_prepare { ServedCapturesAreNotBadToPrepare }
{}
