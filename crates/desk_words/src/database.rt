//! Where a desk keeps its cases.
ghost use Rattle.std.specs.Prelude.{◌≡◌, map, string_bytes, IfOk};
ghost use Rattle.std.specs.Option.{option_map};
ghost use Rattle.desk_words.specs.Serve.{database_name, parse};

use crate::command::serving_in;
use std::alloc::Global;
use vet_base::Memory;

/// Where the desk of an office keeps its cases: `desk.sqlite` in its folder.
#[tactic(auto, unfolding(crate::specs::Serve::database_name))]
pub fn database_in(alloc: Global, office: &str) -> Result<String, Memory>
    ensures { IfOk result (λ path. string_bytes path ≡ database_name office.now) }
{
    let mut path = String::from_str(alloc, office)?;
    path.push_str("/desk.sqlite")?;
    Ok(path)
}

/// The same of the desk that the words ask for. `None` exactly where they are no `serve OFFICE N`.
pub fn database_path(alloc: Global, words: &[String]) -> Result<Option<String>, Memory>
    ensures { IfOk result (λ path. option_map string_bytes path ≡ option_map (λ asked. database_name asked.office)
        (parse (map string_bytes words.now))) }
{
    match serving_in(words) {
        Some(asked) => Ok(Some(database_in(alloc, asked.office)?)),
        None => Ok(None),
    }
}
