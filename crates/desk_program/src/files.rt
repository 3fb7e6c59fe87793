//! The files in which a desk may keep its cases.
ghost use Rattle.std.specs.Prelude.{◌≡◌, ◌++◌, string_bytes, IfOk};
ghost use Rattle.desk_words.specs.Serve.{asked_words, database_name};
ghost use Rattle.desk_program.specs.Files.{journal_name, names_of, files_of};

use desk_words::{Serving, database_in};
use std::alloc::Global;
use vet_base::Memory;

/// The paths of the files in which a desk may keep its cases, both in the folder of its office.
#[derive(Drop)]
pub struct CaseFiles {
    /// `desk.sqlite`
    pub database: String,
    /// `desk.journal`
    pub journal: String,
}

#[tactic(auto, unfolding(crate::specs::Files::journal_name))]
fn journal_in(alloc: Global, office: &str) -> Result<String, Memory>
    ensures { IfOk result (λ path. string_bytes path ≡ journal_name office.now) }
{
    let mut path = String::from_str(alloc, office)?;
    path.push_str("/desk.journal")?;
    Ok(path)
}

fn files_in(alloc: Global, office: &str) -> Result<CaseFiles, Memory>
    ensures { IfOk result (λ files. names_of files ≡ (database_name office.now, journal_name office.now)) }
{
    let database = database_in(alloc, office)?;
    let journal = journal_in(alloc, office)?;
    Ok(CaseFiles { database, journal })
}

/// Where the desk that is asked for may keep its cases.
pub fn case_files(alloc: Global, asked: &Serving) -> Result<CaseFiles, Memory>
    ensures { IfOk result (λ files. names_of files ≡ files_of (asked_words asked.now)) }
{
    files_in(alloc, asked.office)
}
