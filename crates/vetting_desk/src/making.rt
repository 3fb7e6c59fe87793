//! What a generated app comes to.

ghost use Rattle.std.specs.Prelude.{◌≡◌, ◌<◌, ◌≤◌, List, Option, IfOk, length, Some};
ghost use Rattle.std.specs.Option.{option_map};
ghost use Rattle.app_flow.specs.declared.flow_rows.FlowTable.{FlowTable as TableOf};
ghost use Rattle.vet_base.specs.Outside.{Told};
ghost use Rattle.heard_files.specs.Outside.{Entry};
ghost use Rattle.desk_words.specs.Words.{Make};
ghost use Rattle.vetting_desk.specs.Answer.{due_to_made};
ghost use Rattle.vetting_desk.specs.Due.{due_of};
ghost use Rattle.vetting_desk.specs.Found.{FindsDue};
ghost use Rattle.vetting_desk.specs.Made.{made_parts};

use crate::answer::Answer;
use form_texts::{ListsText, ManifestText};
use made_apps::{declaration_text, layouts_text, lists_text, made_dex, manifest_text};
use std::alloc::Global;
use std::marker::Sync;
use std::sync::Wait;
use std::thread::Threads;
use verdict::{FlowTable, Judged, Outcome, Parts, judge};
use vet_base::{Memory, Seq, Shared};
use worker_pool::{Crew, Lookout};

fn listed(alloc: Global, text: &[u8]) -> Result<Shared<u8>, Memory>
    ensures { IfOk result (λ s. s ≡ text.now) }
{
    Shared::from_vec(alloc, text.to_vec(alloc)?)
}

/// The parts of the app that is drawn from a seed.
#[tactic(auto, unfolding(crate::specs::Made::made_parts))]
fn made_parts(alloc: Global, seed: u32, size: u32) -> Result<Parts, Memory>
    requires seed { seed < 2147483648 }
    requires some { 1 ≤ size }
    requires most { size ≤ 2000 }
    ensures { IfOk result (λ parts. parts ≡ made_parts seed size) }
{
    let bytes = made_dex(alloc, seed, size)?;
    let mut dex = Vec::new(alloc);
    dex.push(Shared::from_vec(alloc, bytes)?)?;
    Ok(Parts {
        manifest: ManifestText::new(listed(alloc, manifest_text())?),
        layouts: listed(alloc, layouts_text())?,
        declaration: listed(alloc, declaration_text())?,
        lists: ListsText::new(listed(alloc, lists_text())?),
        dex: Seq::from_vec(dex),
    })
}

/// How many rows a table has, where there is one. Its memory is given back.
fn count_of(table: Option<FlowTable>) -> Option<usize>
    ensures { result ≡ option_map (λ (table : TableOf). length table.rows) table }
{
    match &table {
        Some(table) => Some(table.rows.len()),
        None => None,
    }
}

fn counted(size: u32, rows: Option<usize>, outcome: Outcome) -> Answer
    ensures { due_of result ≡ due_to_made size rows outcome }
{
    match outcome {
        Outcome::Refused(part, reason) => Answer::Vetted(Outcome::Refused(part, reason)),
        Outcome::Clear => Answer::Made(size, rows, Outcome::Clear),
        Outcome::Flagged(findings) => Answer::Made(size, rows, Outcome::Flagged(findings)),
        Outcome::Undecided(causes, findings) => {
            Answer::Made(size, rows, Outcome::Undecided(causes, findings))
        }
    }
}

/// The answer to a generated app that was judged so.
fn made_as(size: u32, judged: Judged) -> Answer
    ensures { due_of result ≡ due_to_made size
        (option_map (λ (table : TableOf). length table.rows) judged.table) judged.outcome }
{
    let Judged { outcome, table } = judged;
    counted(size, count_of(table), outcome)
}

/// What the app comes to that is drawn from a seed, with so many drawn methods.
pub fn made<T: Threads + Wait + Sync, L: Lookout>(
    alloc: Global,
    app_seed: u32,
    size: u32,
    workers: u8,
    crew: &Crew<'_, T, L>,
) -> Result<Answer, Memory>
    requires app_seed { app_seed < 2147483648 }
    requires some { 1 ≤ size }
    requires most { size ≤ 2000 }
    ensures { IfOk result (λ a. (told : Option Told) (heard : List Entry)
        → FindsDue (Some (Make app_seed size workers)) told heard heard (due_of a)) }
{
    let parts = made_parts(alloc, app_seed, size)?;
    let judged = judge(alloc, &parts, &crew.of(workers))?;
    Ok(made_as(size, judged))
}
