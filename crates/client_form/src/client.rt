ghost use Rattle.std.specs.Prelude.{◌≡◌, ◌≢◌, IfOk, IfErr};
ghost use Rattle.toml.specs.View.{table_view};
ghost use Rattle.vet_base.specs.Script.{Gives};
ghost use Rattle.client_form.specs.Form.{client_form, IsSound, IsClient, FirstFault};

use crate::fault::{Fault, Key, told_as};
use crate::fields::{known, number_at, token_at};
use form_fields::{FormFault, read_tree, told_of};
use std::alloc::Global;
use toml::Table;
use vet_base::{Name, Stop};

/// How a developer reaches the desk.
#[derive(Drop)]
pub struct Client {
    /// The port of the desk on this machine: 1 to 65535.
    pub port: u16,
    /// 8 to 128 visible ASCII characters.
    pub token: Name,
    /// How often one dials at most: 1 to 16.
    pub tries: u8,
}

/// The numbers and the token of a tree.
#[tactic(auto, unfolding(crate::specs::Form::client_form), using(vet_base::proofs::Scripts::run_bind))]
fn client_in(alloc: Global, tree: &Table) -> Result<Client, Stop<Fault>>
    ensures value { Gives (λ client. client) result (client_form (table_view tree.now)) }
    ensures sound { IfOk result IsSound }
{
    known(alloc, tree)?;
    let port = number_at(tree, Key::Port, 65535)?;
    let token = token_at(alloc, tree)?;
    let tries = number_at(tree, Key::Tries, 16)?;
    Ok(Client {
        port,
        token,
        tries: tries as u8,
    })
}

/// Reads the client's file: the number `port` from 1 to 65535, the text `token` of 8 to 128 visible ASCII characters
/// and the number `tries` from 1 to 16, and no other key.
#[tactic(auto, using(crate::proofs::Forms::is_client, crate::proofs::Forms::is_fault, crate::proofs::Forms::is_unread))]
pub fn read_client(alloc: Global, text: &[u8]) -> Result<Client, FormFault>
    ensures ok { IfOk result (IsClient text.now) }
    ensures sound { IfOk result IsSound }
    ensures err { IfErr result (λ e. e ≢ FormFault.Memory → FirstFault text.now e) }
{
    let tree = match read_tree(alloc, text) {
        Ok(tree) => tree,
        Err(stop) => return Err(told_of(alloc, stop)),
    };
    match client_in(alloc, &tree) {
        Ok(client) => Ok(client),
        Err(stop) => Err(told_as(alloc, stop)),
    }
}
