// The top call.
ghost use Rattle.std.specs.Prelude.{◌≡◌, ◌≢◌, ◌⊎◌, ◌≤◌, ◌+◌, ℕ, List, [], ◌∷◌, length, IsTrue, Option, Some, None, map, string_bytes, IfOk, OnErr};
ghost use Rattle.lot_draft.specs.declared.fault.ModelFault.{ModelFault};
ghost use Rattle.lot_io.specs.Outside.{Fails, Finds, GrewBy, Misses, OnlyReads, OnlyWrites, Rose};
ghost use Rattle.command_line.specs.Meant.{request_by};
ghost use Rattle.command_line.specs.Words.{Search, AreTaken, IsAllowed, bounding, checking, command_of, completing, demonstrating, drawing, generating, judging, pegging, planning, replanning, reporting, schedule_checking, scheduling, upgrading};
ghost use Rattle.command_line.specs.declared.commands.ReportForm.{ReportForm};
ghost use Rattle.lotplan.specs.Saying.{Ends, IsSaid, Prints};
ghost use Rattle.lotplan.specs.declared.status.TheConstants.{DONE, NO_PLAN, UNDECIDED, FAULTY, NO_COMMAND, REFUSED, MISSING, UNREAD, UNWRITTEN, UNPRINTED, NO_MEMORY, TOO_LONG, NO_REST};
ghost use Rattle.lotplan.specs.declared.status.Status.TheVariants.{NoCommand};
ghost use Rattle.lotplan.specs.Reading.{missing, refused, too_long, unread};
ghost use Rattle.lotplan.specs.Writing.{StartsAmong, StartsAtMost, AppendsAs, pieces_in};
ghost use Rattle.lotplan.specs.Planning.{FailsToWrite, FindsNoPlan, FindsStartFault, KeepsStart, LeavesOpen, PlansBest};
ghost use Rattle.lotplan.specs.Judging.{FindsFault, FindsFeasible};
ghost use Rattle.lotplan.specs.Checking.{Accepts, AcceptsCertificate, CallsForDone, FindsRefused};
ghost use Rattle.lotplan.specs.Upgrading.{FailsToUpgrade, Upgrades};
ghost use Rattle.lotplan.specs.Bounding.{FindsBound, FindsNoBound, FindsNoPoint};
ghost use Rattle.lotplan.specs.Reporting.{SumsUp};
ghost use Rattle.lotplan.specs.Generating.{FailsToGenerate, Generates};
ghost use Rattle.lotplan.specs.Showing.{Shows};
ghost use Rattle.lotplan.specs.Extracting.{FailsToExtract, WritesExtract};
ghost use Rattle.lotplan.specs.Scheduling.{AcceptsSchedule, FindsSlotsFault, Laid, scheduled_word};
ghost use Rattle.lotplan.specs.Pegging.{Pegged, pegged_word};
ghost use Rattle.lotplan.specs.Completing.{Completes, FailsToComplete, FindsIncomplete, FindsNoTable};
ghost use Rattle.lotplan.specs.Drawing.{Draws, FailsToDraw, FindsDrawFault};
ghost use Rattle.lotplan.specs.Replanning.{CallsForDoneIfShort, FailsToReplan, FindsNoRest, FindsNoStart, FindsNoneLater, FindsPlanFault, LeavesRestOpen, ReplansBest};
ghost use Rattle.lotplan.specs.Run.{CallFor, EndsAs, HadNoFault, IsIdle, IsNoCommand, IsOverlong, IsProgramRun, Leaves, SaysFor, Stops, most_given, reads_of, refused_line, writes_of};
ghost use Rattle.lotplan.specs.Fetching.{FailsAtMostOnce, FetchesAs};

use crate::commands::bound::bound_files;
use crate::commands::check::check_files;
use crate::commands::complete::complete_files;
use crate::commands::demo::show_plans;
use crate::commands::draw::draw_files;
use crate::commands::generate::generate_file;
use crate::commands::judge::judge_files;
use crate::commands::peg::peg_files;
use crate::commands::plan::plan_files;
use crate::commands::replanning::replan_files;
use crate::commands::reporting::report_files;
use crate::commands::schedcheck::schedcheck_files;
use crate::commands::schedule::schedule_files;
use crate::commands::upgrade::upgrade_files;
use crate::laws::statuses_are_one;
use crate::said::Said;
use crate::status::Status;
use command_line::{Command, Reading, commands_are_allowed, read_words};
use lot_io::{Shelf, Sink};
use search_plugins::{Heuristic, Proposer, Watch};
use std::alloc::{AllocError, Global};

/// Does what the words ask for, prints a line, or several of a plan, and gives the number of the status.
///
/// `words` are those after the program's name: none for the program's name and version,
/// `plan MODEL PLAN CERTIFICATE` with or without `--nodes N`, `--start PLAN`, `--gap PERCENT` and `--seconds S`,
/// `judge MODEL PLAN`, `check MODEL PLAN CERTIFICATE`, `report MODEL PLAN` with `--full` or `--table` or neither,
/// `schedule MODEL PLAN SCHEDULE`, `schedcheck MODEL PLAN SCHEDULE`, `peg MODEL PLAN PEGS`,
/// `complete MODEL QUANTITIES PLAN`, `draw MODEL PLAN PAGE` with or without `--proof CERTIFICATE`,
/// `replan MODEL PLAN PERIODS NEW_MODEL NEW_PLAN CERTIFICATE` with or without `--nodes N`,
/// `gen SEED ITEMS PERIODS MODEL`, `demo SEED`, `upgrade MODEL NEW` or `bound MODEL`. All others are no
/// command, a call for help or for the version among them: its text is printed, and nothing is done. N is the most nodes
/// that the certificate's tree may have, from 1 to `LARGEST_BUDGET`, and else `USUAL_BUDGET`. The numbers, and what each
/// means, stand in `status.rt`; `DONE` is always a claim. All memory is taken before the first write.
/// `plan` writes the plan file before the certificate file, and where it found no plan the certificate file alone.
///
/// What is said of counts holds over every shelf and sink, the machine's own too; what is said of
/// contents holds where they are told.
pub fn run<S: Shelf, K: Sink, P: Proposer, H: Heuristic<P::Hint>, W: Watch>(
    alloc: Global,
    proposer: &P,
    heuristic: &H,
    watch: &mut W,
    words: &[String],
    shelf: &mut S,
    out: &mut K,
) -> u8
    // Whatever the words ask for: where memory sufficed and printing didn't fail, the command did what it means, the line
    // that says so was printed, and nothing else, and the number is that of its status.
    ensures ended { result ≢ NO_MEMORY → result ≢ UNPRINTED
        → EndsAs (command_of (map string_bytes words.now)) result (S.shown shelf.old)
        (S.shown shelf.new) (K.shown out.old) (K.shown out.new) }

    // After `plan` with status `DONE` the plan file holds a best plan, the certificate file one that is accepted
    // with it and proves that no plan costs less, and the lines have the certificate's number of nodes and
    // the plan's cost.
    ensures optimal { (m p c : List ℕ) (s : Search)
        → command_of (map string_bytes words.now) ≡ Some (planning m p c s) → result ≡ DONE
        → IsTrue (S.shown shelf.old).told
        → PlansBest (S.shown shelf.old).file (S.shown shelf.new).file m p c s (K.shown out.old)
        (K.shown out.new) }

    // After `plan` with status `DONE`, `NO_PLAN` or `UNDECIDED`, `check` calls for `DONE` on the files that it left.
    ensures checks { (m p c : List ℕ) (s : Search)
        → command_of (map string_bytes words.now) ≡ Some (planning m p c s)
        → (result ≡ DONE) ⊎ ((result ≡ NO_PLAN) ⊎ (result ≡ UNDECIDED))
        → IsTrue (S.shown shelf.old).told
        → CallsForDone (S.shown shelf.new).file m p c }

    // On `NO_PLAN` there is none; the certificate file proves it, and the plan file is as it was. On `UNDECIDED` the
    // certificate file proves the bound, and the plan file holds a plan that costs more, or is as it was. On `UNWRITTEN`
    // the line names the file that could not be written.
    ensures plan_infeasible { (m p c : List ℕ) (s : Search)
        → command_of (map string_bytes words.now) ≡ Some (planning m p c s) → result ≡ NO_PLAN
        → IsTrue (S.shown shelf.old).told
        → FindsNoPlan (S.shown shelf.old).file (S.shown shelf.new).file m p c s (K.shown out.old)
        (K.shown out.new) }
    ensures plan_undecided { (m p c : List ℕ) (s : Search)
        → command_of (map string_bytes words.now) ≡ Some (planning m p c s) → result ≡ UNDECIDED
        → IsTrue (S.shown shelf.old).told
        → LeavesOpen (S.shown shelf.old).file (S.shown shelf.new).file m p c s (K.shown out.old)
        (K.shown out.new) }
    ensures plan_unwritten { (m p c : List ℕ) (s : Search)
        → command_of (map string_bytes words.now) ≡ Some (planning m p c s) → result ≡ UNWRITTEN
        → FailsToWrite (S.shown shelf.old) (S.shown shelf.new) m p c (K.shown out.old)
        (K.shown out.new) }
    ensures wrote_certificate { (m p c : List ℕ) (s : Search)
        → command_of (map string_bytes words.now) ≡ Some (planning m p c s) → result ≡ NO_PLAN
        → StartsAmong (c ∷ []) 1 (S.shown shelf.old) (S.shown shelf.new) }
    ensures wrote_some { (m p c : List ℕ) (s : Search)
        → command_of (map string_bytes words.now) ≡ Some (planning m p c s) → result ≡ UNDECIDED
        → StartsAmong (p ∷ c ∷ []) 2 (S.shown shelf.old) (S.shown shelf.new)
        ⊎ StartsAmong (c ∷ []) 1 (S.shown shelf.old) (S.shown shelf.new) }

    // Where `plan` starts from a plan: with `DONE` or `UNDECIDED` that is a feasible plan of the problem, and the plan file holds one that
    // costs no more. With `FAULTY` there was no such plan to start from, and the line is what `judge` says of the file.
    ensures plan_kept { (m p c start : List ℕ) (s : Search)
        → command_of (map string_bytes words.now) ≡ Some (planning m p c s) → s.start ≡ Some start
        → (result ≡ DONE) ⊎ (result ≡ UNDECIDED) → IsTrue (S.shown shelf.old).told
        → KeepsStart (S.shown shelf.old).file (S.shown shelf.new).file m p start }
    ensures plan_faulty { (m p c : List ℕ) (s : Search)
        → command_of (map string_bytes words.now) ≡ Some (planning m p c s) → result ≡ FAULTY
        → IsTrue (S.shown shelf.old).told
        → FindsStartFault (S.shown shelf.old).file m s (K.shown out.old) (K.shown out.new) }

    // After `judge` with status `DONE` the plan file holds a feasible plan, and the line has its cost; with `FAULTY` it
    // holds none, or one that breaks a rule, and the line names the first fault.
    ensures judged { (m p : List ℕ) → command_of (map string_bytes words.now) ≡ Some (judging m p)
        → result ≡ DONE → IsTrue (S.shown shelf.old).told
        → FindsFeasible (S.shown shelf.old).file m p (K.shown out.old) (K.shown out.new) }
    ensures judge_faulty { (m p : List ℕ)
        → command_of (map string_bytes words.now) ≡ Some (judging m p) → result ≡ FAULTY
        → IsTrue (S.shown shelf.old).told
        → FindsFault (S.shown shelf.old).file m p (K.shown out.old) (K.shown out.new) }

    // After `check` with status `DONE` the claim on the line is true of the problem, whoever wrote the certificate: the plan
    // file's plan is best and costs what is claimed, no plan is feasible, or none costs less than is claimed.
    ensures checked { (m p c : List ℕ) → command_of (map string_bytes words.now)
        ≡ Some (checking m p c) → result ≡ DONE → IsTrue (S.shown shelf.old).told
        → Accepts (S.shown shelf.old).file m p (K.shown out.old) (K.shown out.new) }

    // And the certificate in the certificate file claims it, and is accepted. With `FAULTY` the line names the first fault.
    ensures certified { (m p c : List ℕ)
        → command_of (map string_bytes words.now) ≡ Some (checking m p c) → result ≡ DONE
        → IsTrue (S.shown shelf.old).told
        → AcceptsCertificate (S.shown shelf.old).file m p c (K.shown out.old) (K.shown out.new) }
    ensures check_faulty { (m p c : List ℕ)
        → command_of (map string_bytes words.now) ≡ Some (checking m p c) → result ≡ FAULTY
        → IsTrue (S.shown shelf.old).told
        → FindsRefused (S.shown shelf.old).file m p c (K.shown out.old) (K.shown out.new) }

    // After `report` with status `DONE` the plan file holds a feasible plan, and what is printed is its summary, or with
    // `--full` all of it by periods as a line of JSON, or with `--table` its tables; with `FAULTY` the line is what `judge` says.
    ensures summed { (m p : List ℕ) (form : ReportForm)
        → command_of (map string_bytes words.now) ≡ Some (reporting m p form) → result ≡ DONE
        → IsTrue (S.shown shelf.old).told
        → SumsUp (S.shown shelf.old).file m p form (K.shown out.old) (K.shown out.new) }
    ensures report_faulty { (m p : List ℕ) (form : ReportForm)
        → command_of (map string_bytes words.now) ≡ Some (reporting m p form) → result ≡ FAULTY
        → IsTrue (S.shown shelf.old).told
        → FindsFault (S.shown shelf.old).file m p (K.shown out.old) (K.shown out.new) }

    // After `upgrade` with status `DONE` the new file means the problem of the model file.
    ensures upgraded { (m n : List ℕ) → command_of (map string_bytes words.now)
        ≡ Some (upgrading m n) → result ≡ DONE → IsTrue (S.shown shelf.old).told
        → Upgrades (S.shown shelf.old).file (S.shown shelf.new).file m n (K.shown out.old)
        (K.shown out.new) }
    ensures upgrade_unwritten { (m n : List ℕ)
        → command_of (map string_bytes words.now) ≡ Some (upgrading m n) → result ≡ UNWRITTEN
        → FailsToUpgrade (S.shown shelf.old) (S.shown shelf.new) m n (K.shown out.old)
        (K.shown out.new) }

    // After `gen` with status `DONE` the model file holds the coupled model of the seed, which means a problem with a
    // feasible plan. No file is read.
    ensures generated { (seed items periods : ℕ) (m : List ℕ)
        → command_of (map string_bytes words.now) ≡ Some (generating seed items periods m)
        → result ≡ DONE → IsTrue (S.shown shelf.old).told
        → Generates (S.shown shelf.new).file seed items periods m (K.shown out.old)
        (K.shown out.new) }
    ensures generate_unwritten { (seed items periods : ℕ) (m : List ℕ)
        → command_of (map string_bytes words.now) ≡ Some (generating seed items periods m)
        → result ≡ UNWRITTEN
        → FailsToGenerate (S.shown shelf.old) (S.shown shelf.new) m (K.shown out.old)
        (K.shown out.new) }
    ensures generate_only_writes { (seed items periods : ℕ) (m : List ℕ)
        → command_of (map string_bytes words.now) ≡ Some (generating seed items periods m)
        → OnlyWrites m (S.shown shelf.old) (S.shown shelf.new) }

    // After `demo` with status `DONE` the lines are those that `plan` prints of what was found of two models of the seed,
    // and what they say is so.
    ensures showed { (seed : ℕ) → command_of (map string_bytes words.now)
        ≡ Some (demonstrating seed) → result ≡ DONE
        → Shows seed (K.shown out.old) (K.shown out.new) }

    // After `bound` with status `DONE` the number on the line is the base bound of the problem, and no plan costs less;
    // with `NO_PLAN` no point meets the base rows, so that no plan is feasible; with `UNDECIDED` the tableau is too large, or
    // a number of the run doesn't fit.
    ensures bounded { (m : List ℕ) → command_of (map string_bytes words.now) ≡ Some (bounding m)
        → result ≡ DONE → IsTrue (S.shown shelf.old).told
        → FindsBound (S.shown shelf.old).file m (K.shown out.old) (K.shown out.new) }
    ensures bound_infeasible { (m : List ℕ)
        → command_of (map string_bytes words.now) ≡ Some (bounding m) → result ≡ NO_PLAN
        → IsTrue (S.shown shelf.old).told
        → FindsNoPoint (S.shown shelf.old).file m (K.shown out.old) (K.shown out.new) }
    ensures bound_undecided { (m : List ℕ)
        → command_of (map string_bytes words.now) ≡ Some (bounding m) → result ≡ UNDECIDED
        → IsTrue (S.shown shelf.old).told
        → FindsNoBound (S.shown shelf.old).file m (K.shown out.old) (K.shown out.new) }

    // After `schedule` with status `DONE` the plan file holds a feasible plan, and the schedule file's bytes are read back as a
    // schedule of it, of which no other has a smaller sum of ends on any resource in any period; the line has the number of
    // its slots.
    ensures scheduled { (m p s : List ℕ)
        → command_of (map string_bytes words.now) ≡ Some (scheduling m p s) → result ≡ DONE
        → IsTrue (S.shown shelf.old).told
        → WritesExtract (Laid s) scheduled_word (S.shown shelf.old).file
        (S.shown shelf.new).file m p (K.shown out.old) (K.shown out.new) }
    ensures schedule_faulty { (m p s : List ℕ)
        → command_of (map string_bytes words.now) ≡ Some (scheduling m p s) → result ≡ FAULTY
        → IsTrue (S.shown shelf.old).told
        → FindsFault (S.shown shelf.old).file m p (K.shown out.old) (K.shown out.new) }
    ensures schedule_unwritten { (m p s : List ℕ)
        → command_of (map string_bytes words.now) ≡ Some (scheduling m p s) → result ≡ UNWRITTEN
        → FailsToExtract (S.shown shelf.old) (S.shown shelf.new) m p s (K.shown out.old)
        (K.shown out.new) }

    // After `schedcheck` with status `DONE` the schedule file's bytes are a schedule of the plan file's feasible plan; with `FAULTY`
    // the line names the first fault of the plan file, or of the schedule file.
    ensures schedule_checked { (m p s : List ℕ)
        → command_of (map string_bytes words.now) ≡ Some (schedule_checking m p s) → result ≡ DONE
        → IsTrue (S.shown shelf.old).told
        → AcceptsSchedule (S.shown shelf.old).file m p s (K.shown out.old) (K.shown out.new) }
    ensures schedcheck_faulty { (m p s : List ℕ)
        → command_of (map string_bytes words.now) ≡ Some (schedule_checking m p s) → result ≡ FAULTY
        → IsTrue (S.shown shelf.old).told
        → FindsFault (S.shown shelf.old).file m p (K.shown out.old) (K.shown out.new)
        ⊎ FindsSlotsFault (S.shown shelf.old).file m p s (K.shown out.old) (K.shown out.new) }

    // After `peg` with status `DONE` the new file's bytes are the text of exactly the pegs of the plan file's feasible plan; they use up
    // each supply, meet each need, and come in time where an item has no backlog cost. The line has their number.
    ensures pegged { (m p q : List ℕ) → command_of (map string_bytes words.now)
        ≡ Some (pegging m p q) → result ≡ DONE → IsTrue (S.shown shelf.old).told
        → WritesExtract (Pegged q) pegged_word (S.shown shelf.old).file (S.shown shelf.new).file m p
        (K.shown out.old) (K.shown out.new) }
    ensures peg_faulty { (m p q : List ℕ)
        → command_of (map string_bytes words.now) ≡ Some (pegging m p q) → result ≡ FAULTY
        → IsTrue (S.shown shelf.old).told
        → FindsFault (S.shown shelf.old).file m p (K.shown out.old) (K.shown out.new) }
    ensures peg_unwritten { (m p q : List ℕ)
        → command_of (map string_bytes words.now) ≡ Some (pegging m p q) → result ≡ UNWRITTEN
        → FailsToExtract (S.shown shelf.old) (S.shown shelf.new) m p q (K.shown out.old)
        (K.shown out.new) }

    // After `complete` with status `DONE` the new file holds a feasible plan with the table's quantities, and its setups, or where
    // it has none a setup where something is made; no feasible plan with these has less stock or backlog, or costs less, and the
    // line has the cost. With `FAULTY` no feasible plan has them, and the line names the rule that is broken first with the least
    // stocks and backlogs, or the file is no table, and the line names its first fault.
    ensures completed { (m p q : List ℕ)
        → command_of (map string_bytes words.now) ≡ Some (completing m p q) → result ≡ DONE
        → IsTrue (S.shown shelf.old).told
        → Completes (S.shown shelf.old).file (S.shown shelf.new).file m p q (K.shown out.old)
        (K.shown out.new) }
    ensures complete_faulty { (m p q : List ℕ)
        → command_of (map string_bytes words.now) ≡ Some (completing m p q) → result ≡ FAULTY
        → IsTrue (S.shown shelf.old).told
        → FindsIncomplete (S.shown shelf.old).file m p (K.shown out.old) (K.shown out.new)
        ⊎ FindsNoTable (S.shown shelf.old).file m p (K.shown out.old) (K.shown out.new) }
    ensures complete_unwritten { (m p q : List ℕ)
        → command_of (map string_bytes words.now) ≡ Some (completing m p q) → result ≡ UNWRITTEN
        → FailsToComplete (S.shown shelf.old) (S.shown shelf.new) m p q (K.shown out.old)
        (K.shown out.new) }

    // After `draw` with status `DONE` the plan file holds a feasible plan, and the page's bytes are those of its page; what the page says is
    // proved is so, and where a certificate is asked for it is what `check` accepts. The line has the number of its bytes. With `FAULTY`
    // the line names the first fault of the plan, or of the certificate.
    ensures drawn { (m p h : List ℕ) (c : Option (List ℕ))
        → command_of (map string_bytes words.now) ≡ Some (drawing m p h c) → result ≡ DONE
        → IsTrue (S.shown shelf.old).told
        → Draws (S.shown shelf.old).file (S.shown shelf.new).file m p h c (K.shown out.old)
        (K.shown out.new) }
    ensures draw_faulty { (m p h : List ℕ) (c : Option (List ℕ))
        → command_of (map string_bytes words.now) ≡ Some (drawing m p h c) → result ≡ FAULTY
        → IsTrue (S.shown shelf.old).told
        → FindsDrawFault (S.shown shelf.old) (S.shown shelf.new) m p c (K.shown out.old)
        (K.shown out.new) }
    ensures draw_unwritten { (m p h : List ℕ) (c : Option (List ℕ))
        → command_of (map string_bytes words.now) ≡ Some (drawing m p h c) → result ≡ UNWRITTEN
        → FailsToDraw (S.shown shelf.old) (S.shown shelf.new) m p h c (K.shown out.old)
        (K.shown out.new) }

    // After `replan` with status `DONE` the new model file means the rest, the periods after those that are kept; the new plan file
    // holds a best plan of it, and behind the start of the plan file's plan that is a best plan of all that agree with the start.
    // The certificate file proves it, and the last line has what it costs.
    ensures replanned { (m p n q c : List ℕ) (first budget : ℕ)
        → command_of (map string_bytes words.now) ≡ Some (replanning m p first n q c budget)
        → result ≡ DONE → IsTrue (S.shown shelf.old).told
        → ReplansBest (S.shown shelf.old).file (S.shown shelf.new).file m p first n q c budget
        (K.shown out.old) (K.shown out.new) }

    // On `NO_PLAN` no feasible plan agrees with the start: no plan of the rest is feasible, or the start doesn't stand, and then no
    // file has changed. On `UNDECIDED` each that agrees costs at least the floor on the last line. On `NO_REST` no later periods
    // can be planned, and on `FAULTY` the plan file holds no plan. On `UNWRITTEN` the line names the file that could not be written.
    ensures replan_infeasible { (m p n q c : List ℕ) (first budget : ℕ)
        → command_of (map string_bytes words.now) ≡ Some (replanning m p first n q c budget)
        → result ≡ NO_PLAN → IsTrue (S.shown shelf.old).told
        → FindsNoneLater (S.shown shelf.old).file (S.shown shelf.new).file m p first n q c budget
        (K.shown out.old) (K.shown out.new)
        ⊎ FindsNoStart (S.shown shelf.old).file (S.shown shelf.new).file m p first (K.shown out.old)
        (K.shown out.new) }
    ensures replan_undecided { (m p n q c : List ℕ) (first budget : ℕ)
        → command_of (map string_bytes words.now) ≡ Some (replanning m p first n q c budget)
        → result ≡ UNDECIDED → IsTrue (S.shown shelf.old).told
        → LeavesRestOpen (S.shown shelf.old).file (S.shown shelf.new).file m p first n q c budget
        (K.shown out.old) (K.shown out.new) }
    ensures no_rest { (m p n q c : List ℕ) (first budget : ℕ)
        → command_of (map string_bytes words.now) ≡ Some (replanning m p first n q c budget)
        → result ≡ NO_REST → IsTrue (S.shown shelf.old).told
        → FindsNoRest (S.shown shelf.old).file m p first (K.shown out.old) (K.shown out.new) }
    ensures replan_faulty { (m p n q c : List ℕ) (first budget : ℕ)
        → command_of (map string_bytes words.now) ≡ Some (replanning m p first n q c budget)
        → result ≡ FAULTY → IsTrue (S.shown shelf.old).told
        → FindsPlanFault (S.shown shelf.old).file m p (K.shown out.old) (K.shown out.new) }
    ensures replan_unwritten { (m p n q c : List ℕ) (first budget : ℕ)
        → command_of (map string_bytes words.now) ≡ Some (replanning m p first n q c budget)
        → result ≡ UNWRITTEN
        → FailsToReplan (S.shown shelf.old) (S.shown shelf.new) m p first n q c (K.shown out.old)
        (K.shown out.new) }
    ensures replan_wrote_two { (m p n q c : List ℕ) (first budget : ℕ)
        → command_of (map string_bytes words.now) ≡ Some (replanning m p first n q c budget)
        → result ≡ NO_PLAN
        → StartsAmong (n ∷ c ∷ []) 2 (S.shown shelf.old) (S.shown shelf.new)
        ⊎ OnlyReads (S.shown shelf.old) (S.shown shelf.new) }
    ensures replan_wrote_some { (m p n q c : List ℕ) (first budget : ℕ)
        → command_of (map string_bytes words.now) ≡ Some (replanning m p first n q c budget)
        → result ≡ UNDECIDED
        → StartsAmong (n ∷ q ∷ c ∷ []) 3 (S.shown shelf.old) (S.shown shelf.new)
        ⊎ StartsAmong (n ∷ c ∷ []) 2 (S.shown shelf.old) (S.shown shelf.new) }

    // After `replan` with status `DONE`, `NO_PLAN` or `UNDECIDED`, `check` calls for `DONE` on the three files that it left, where the
    // new model file isn't too long to be read; or the status is `NO_PLAN`, and nothing was written.
    ensures replan_checks { (m p n q c : List ℕ) (first budget : ℕ)
        → command_of (map string_bytes words.now) ≡ Some (replanning m p first n q c budget)
        → (result ≡ DONE) ⊎ ((result ≡ NO_PLAN) ⊎ (result ≡ UNDECIDED))
        → IsTrue (S.shown shelf.old).told
        → CallsForDoneIfShort (S.shown shelf.new).file n q c
        ⊎ ((result ≡ NO_PLAN) × OnlyReads (S.shown shelf.old) (S.shown shelf.new)) }

    // Without a fault the status is `NO_MEMORY`, or exactly what the words and the files call for.
    ensures called_for { IsTrue (S.shown shelf.old).told
        → HadNoFault (S.shown shelf.old) (S.shown shelf.new) (K.shown out.old) (K.shown out.new)
        → (result ≡ NO_MEMORY) ⊎ CallFor (command_of (map string_bytes words.now))
        (S.shown shelf.old).file result }

    // The cause of each status that any command may have, and its line; `draw` may also refuse a page for its length.
    ensures no_command { result ≡ NO_COMMAND
        → IsNoCommand (command_of (map string_bytes words.now)) (K.shown out.old)
        (K.shown out.new) }
    ensures refused_words { command_of (map string_bytes words.now) ≡ None
        → AreTaken (map string_bytes words.now)
        → (result ≡ NO_MEMORY) ⊎ Prints refused_line NoCommand result (K.shown out.old)
        (K.shown out.new) }
    ensures refused { result ≡ REFUSED → (fault : ModelFault)
        × Stops (command_of (map string_bytes words.now))
        (S.shown shelf.old) (S.shown shelf.new) (K.shown out.old) (K.shown out.new)
        (refused fault) }
    ensures missing { result ≡ MISSING → (file : List ℕ)
        × Stops (command_of (map string_bytes words.now))
        (S.shown shelf.old) (S.shown shelf.new) (K.shown out.old) (K.shown out.new) (missing file) }
    ensures unread { result ≡ UNREAD → (file : List ℕ)
        × Stops (command_of (map string_bytes words.now))
        (S.shown shelf.old) (S.shown shelf.new) (K.shown out.old) (K.shown out.new) (unread file) }
    ensures unprinted { result ≡ UNPRINTED
        → Rose (K.shown out.old).faults (K.shown out.new).faults }
    ensures too_long { result ≡ TOO_LONG
        → ((file : List ℕ) × Stops (command_of (map string_bytes words.now))
        (S.shown shelf.old) (S.shown shelf.new) (K.shown out.old) (K.shown out.new) (too_long file))
        ⊎ IsOverlong (command_of (map string_bytes words.now)) (S.shown shelf.old) (K.shown out.old)
        (K.shown out.new) }

    // What is written: nothing on a status but those that `quiet` names; never another file than the command's own; on
    // `DONE` each of these once; and by a command that has none nothing at all.
    ensures quiet { result ≢ DONE → result ≢ NO_PLAN → result ≢ UNDECIDED → result ≢ UNWRITTEN
        → result ≢ UNPRINTED
        → OnlyReads (S.shown shelf.old) (S.shown shelf.new) }
    ensures writes { StartsAtMost (writes_of (command_of (map string_bytes words.now)))
        (S.shown shelf.old) (S.shown shelf.new) }
    ensures wrote { result ≡ DONE → GrewBy
        (length (writes_of (command_of (map string_bytes words.now)))) (S.shown shelf.old).starts
        (S.shown shelf.new).starts }
    ensures only_reads { writes_of (command_of (map string_bytes words.now)) ≡ []
        → OnlyReads (S.shown shelf.old) (S.shown shelf.new) }

    // In how many pieces: where told, in no more than the files that the command may write make of the most bytes that go over
    // in one call.
    ensures appended { result ≢ UNWRITTEN → result ≢ UNPRINTED → IsTrue (S.shown shelf.old).told
        → (S.shown shelf.new).appends ≤ (S.shown shelf.old).appends
        + pieces_in (writes_of (command_of (map string_bytes words.now))) (S.shown shelf.new).file }

    // What is read: nothing for words that are no command, for the version, and by `demo`; no file by `gen`; of each file
    // that a command reads at most as much as of one within the limit, and by `check` and `draw` three times a certificate file.
    ensures idle { IsIdle (command_of (map string_bytes words.now))
        → S.shown shelf.new ≡ S.shown shelf.old }
    ensures given { (S.shown shelf.new).given
        ≤ (S.shown shelf.old).given + most_given (command_of (map string_bytes words.now)) }
    ensures told { (S.shown shelf.new).told ≡ (S.shown shelf.old).told }

    // What wasn't found, and which fetches failed: one name or one fetch at most. With `MISSING` one name was not found, with
    // `UNREAD` one fetch failed, and with every other status but `UNPRINTED` and `NO_MEMORY` each name was found and no fetch
    // failed.
    ensures found { result ≢ MISSING → result ≢ UNREAD → result ≢ UNPRINTED → result ≢ NO_MEMORY
        → Finds (S.shown shelf.old) (S.shown shelf.new) }
    ensures missed { result ≡ MISSING → Misses (S.shown shelf.old) (S.shown shelf.new) }
    ensures failed { result ≡ UNREAD → Fails (S.shown shelf.old) (S.shown shelf.new) }
    ensures once { result ≢ NO_MEMORY
        → FailsAtMostOnce (S.shown shelf.old) (S.shown shelf.new) }

    // What is printed: nothing on `NO_MEMORY`, and else one piece.
    ensures silent { result ≡ NO_MEMORY → K.shown out.new ≡ K.shown out.old }
    ensures one_piece { result ≢ NO_MEMORY
        → GrewBy 1 (K.shown out.old).puts (K.shown out.new).puts }
    ensures told_sink { (K.shown out.new).told ≡ (K.shown out.old).told }

    // The whole: memory ran out before anything was written, or some answer explains what the run did.
    ensures run { IsProgramRun (command_of (map string_bytes words.now)) result (S.shown shelf.old)
        (S.shown shelf.new)
        (K.shown out.old) (K.shown out.new) }
{
    commands_are_allowed();
    statuses_are_one();
    let said = said(alloc, proposer, heuristic, watch, words, shelf);
    end_with(&said, out)
}

/// Prints the refusal of words that are no text in UTF-8, and gives the number of the status: `NO_COMMAND`, or
/// `UNPRINTED` where printing fails. It takes no memory.
pub fn refuse_words<K: Sink>(out: &mut K) -> u8
    ensures refused { Prints refused_line NoCommand result (K.shown out.old) (K.shown out.new) }
    ensures one_piece { GrewBy 1 (K.shown out.old).puts (K.shown out.new).puts }
    ensures told { (K.shown out.new).told ≡ (K.shown out.old).told }
{
    match out.put(b"refused words\n") {
        Ok(()) => Status::NoCommand.code(),
        Err(_) => Status::Unprinted.code(),
    }
}

// Prints what is said, if memory sufficed for it, and gives the number of the status.
fn end_with<K: Sink>(said: &Result<Said, AllocError>, out: &mut K) -> u8
    ensures ends { Ends said.now result (K.shown out.old) (K.shown out.new) }
    ensures one_piece { result ≢ NO_MEMORY
        → GrewBy 1 (K.shown out.old).puts (K.shown out.new).puts }
    ensures told { (K.shown out.new).told ≡ (K.shown out.old).told }
{
    match said {
        Ok(said) => match out.put(said.line.as_slice()) {
            Ok(()) => said.status.code(),
            Err(_) => Status::Unprinted.code(),
        },
        Err(_) => Status::NoMemory.code(),
    }
}

// What is said of the words.
fn said<S: Shelf, P: Proposer, H: Heuristic<P::Hint>, W: Watch>(
    alloc: Global,
    proposer: &P,
    heuristic: &H,
    watch: &mut W,
    words: &[String],
    shelf: &mut S,
) -> Result<Said, AllocError>
    ensures said { IfOk result (SaysFor (command_of (map string_bytes words.now))
        (S.shown shelf.old) (S.shown shelf.new)) }
    ensures refused { command_of (map string_bytes words.now) ≡ None
        → AreTaken (map string_bytes words.now) → IfOk result (IsSaid refused_line NoCommand) }
    ensures memory { OnErr result (Leaves (reads_of (command_of (map string_bytes words.now)))
        (S.shown shelf.old) (S.shown shelf.new)) }
    ensures found { IfOk result (λ said. FetchesAs said.status (S.shown shelf.old)
        (S.shown shelf.new)) }
    ensures appended { IfOk result (λ said. AppendsAs
        (writes_of (command_of (map string_bytes words.now))) said.status (S.shown shelf.old)
        (S.shown shelf.new)) }
    ensures given { (S.shown shelf.new).given
        ≤ (S.shown shelf.old).given + most_given (command_of (map string_bytes words.now)) }
{
    commands_are_allowed();
    match read_words(alloc, words) {
        Ok(Reading::Command(command)) => said_of(alloc, proposer, heuristic, watch, command, shelf),
        Ok(Reading::Text(text)) => Ok(Said::of(text, Status::NoCommand)),
        Err(_) => Err(AllocError),
    }
}

// What is said of a command.
fn said_of<S: Shelf, P: Proposer, H: Heuristic<P::Hint>, W: Watch>(
    alloc: Global,
    proposer: &P,
    heuristic: &H,
    watch: &mut W,
    command: Command<'_>,
    shelf: &mut S,
) -> Result<Said, AllocError>
    requires { IsAllowed (request_by command) }
    ensures said { IfOk result (SaysFor (Some (request_by command.entry)) (S.shown shelf.old)
        (S.shown shelf.new)) }
    ensures memory { OnErr result (Leaves (reads_of (Some (request_by command.entry)))
        (S.shown shelf.old) (S.shown shelf.new)) }
    ensures found { IfOk result (λ said. FetchesAs said.status (S.shown shelf.old)
        (S.shown shelf.new)) }
    ensures appended { IfOk result (λ said. AppendsAs (writes_of (Some (request_by command.entry)))
        said.status (S.shown shelf.old) (S.shown shelf.new)) }
    ensures given { (S.shown shelf.new).given
        ≤ (S.shown shelf.old).given + most_given (Some (request_by command.entry)) }
{
    match command {
        Command::Name => Said::new(alloc, "lotplan 1\n", Status::Done),
        Command::Plan { names, search } => {
            plan_files(alloc, proposer, heuristic, watch, names, search, shelf)
        }
        Command::Judge(names) => judge_files(alloc, names.model, names.plan, shelf),
        Command::Check(names) => {
            check_files(alloc, names.model, names.plan, names.certificate, shelf)
        }
        Command::Report { names, form } => {
            report_files(alloc, names.model, names.plan, form, shelf)
        }
        Command::Generate {
            seed,
            items,
            periods,
            model,
        } => generate_file(alloc, seed, items, periods, model, shelf),
        Command::Demo(seed) => show_plans(alloc, proposer, heuristic, watch, seed),
        Command::Upgrade(names) => upgrade_files(alloc, names.model, names.upgraded, shelf),
        Command::Bound(model) => bound_files(alloc, model, shelf),
        Command::Schedule(names) => {
            schedule_files(alloc, names.model, names.plan, names.schedule, shelf)
        }
        Command::CheckSchedule(names) => {
            schedcheck_files(alloc, names.model, names.plan, names.schedule, shelf)
        }
        Command::Peg(names) => peg_files(alloc, names.model, names.plan, names.pegs, shelf),
        Command::Complete(names) => {
            complete_files(alloc, names.model, names.quantities, names.completed, shelf)
        }
        Command::Draw { names, certificate } => draw_files(alloc, names, certificate, shelf),
        Command::Replan {
            names,
            periods,
            budget,
        } => replan_files(
            alloc, proposer, heuristic, watch, names, periods, budget, shelf,
        ),
    }
}
