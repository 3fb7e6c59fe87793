ghost use Rattle.std.specs.Prelude.{◌≡◌, ◌≤◌, ◌<◌, ◌+◌, ℕ, List, Some, find, true, IsTrue, map};
ghost use Rattle.std.specs.List.{AllByRecursion};
ghost use Rattle.case_rules.specs.Cases.{is_named, rows_of, state_of, after};
ghost use Rattle.case_rules.specs.Rules.{Session, is_developer};
ghost use Rattle.case_rules.specs.Desk.{Judgement, Turn, desk, reply_to, cases_then, cases_after, replies_to};
ghost use Rattle.case_rules.specs.Docket.{IsDocket, Fits, AreFormedCases};
ghost use Rattle.case_rules.specs.Laws.{KeepsCases, AllBy, AllByOthers, AreFormed};
ghost use Rattle.case_rules.specs.Runs.{Standing, Connection, IsDeskRun, turns_of, replies_in, failures_in};
ghost use Rattle.case_rules.specs.Earlier.{EarlierCase, IsEarlierCase, IsEarlierCommand};
ghost use Rattle.case_rules.specs.Earlier.{earlier_desk, raised, raised_reply};

use crate::{Case, Change, Command, Content, Refusal, Reply};

/// A submission that comes again changes nothing, a case is decided at most once under one edition
/// of the lists, and no later command changes or removes what was decided, appealed or ruled.
pub fn each_thing_is_done_once()
    ensures same_bytes { (session : Session) (judgement : Judgement) (reference : List ℕ) (content : Content)
        (cases : List Case) (case : Case)
        → IsTrue (is_developer session.party.role)
        → find (is_named session.party.name reference) cases ≡ Some case
        → case.content ≡ content
        → desk session judgement (Command.Submit reference content) cases
        ≡ (Reply.Kept reference (state_of case), cases) }
    ensures one_decision_an_edition { (turns : List Turn) (cases : List Case)
        → IsDocket cases → IsDocket (cases_after turns cases) }
    ensures nothing_is_lost { (turns : List Turn) (cases : List Case) → KeepsCases cases (cases_after turns cases) }
{}

/// A change that fits keeps what is asked of the cases of a desk, whatever its reference and its text. Where references
/// and texts of commands have their form, those of the cases keep it.
pub fn what_fits_keeps_a_docket()
    ensures docket { (change : Change) (cases : List Case)
        → Fits change cases → IsDocket cases → IsDocket (after change cases) }
    ensures forms { (turns : List Turn) (cases : List Case)
        → AreFormed turns → AreFormedCases cases → AreFormedCases (cases_after turns cases) }
{}

/// What a developer is answered depends on that developer's own cases alone, and the commands of
/// other developers leave these as they are.
pub fn a_developer_sees_the_own_cases()
    ensures same_replies { (party : List ℕ) (turns : List Turn) (cases others : List Case)
        → AllBy party turns
        → rows_of party cases ≡ rows_of party others
        → replies_to turns cases ≡ replies_to turns others }
    ensures others_change_nothing { (party : List ℕ) (turns : List Turn) (cases : List Case)
        → AllByOthers party turns
        → rows_of party (cases_after turns cases) ≡ rows_of party cases }
{}

/// A command that is refused changes nothing.
pub fn a_refusal_changes_nothing()
    ensures { (turn : Turn) (cases : List Case) (refusal : Refusal)
        → reply_to turn cases ≡ Reply.No refusal → cases_then turn cases ≡ cases }
{}

/// Cases from before there were editions, each with its one decision as its one entry, are treated
/// as they were.
pub fn earlier_cases_are_treated_as_before()
    ensures { (session : Session) (judgement : Judgement) (command : Command) (cases : List EarlierCase)
        → IsEarlierCommand command
        → AllByRecursion IsEarlierCase cases
        → desk session judgement command (map raised cases)
        ≡ (
          raised_reply (earlier_desk session judgement command cases).0,
          map raised (earlier_desk session judgement command cases).1,
        ) }
{}

/// A run of the desk, connection by connection, makes of the cases what its commands make of them
/// one after the other, and replies to each as they do. Unless the keeper's count stands at its end,
/// no more connections are told that the store failed than the count rose by.
pub fn a_run_is_its_commands()
    ensures cases { (entry exit : Standing) (connections : List Connection)
        → IsDeskRun entry connections exit
        → exit.cases ≡ cases_after (turns_of connections) entry.cases }
    ensures replies { (entry exit : Standing) (connections : List Connection)
        → IsDeskRun entry connections exit
        → replies_in connections ≡ replies_to (turns_of connections) entry.cases }
    ensures store_failed { (entry exit : Standing) (connections : List Connection)
        → IsDeskRun entry connections exit
        → exit.keeper < 18446744073709551615
        → entry.keeper + failures_in connections ≤ exit.keeper }
{}
