ghost use Rattle.std.specs.Prelude.{◌≡◌, IfOk, OnOk, flat_map};
ghost use Rattle.desk_answers.specs.Bodies.{lines_body};
ghost use Rattle.desk_answers.specs.Tokens.{Adds, named_tokens, line_tokens};

use crate::put::{put_state, put_text, put_word};
use crate::words::state_word;
use case_rules::Line;
use json::Writer;
use std::alloc::{AllocError, Global};
use store_office::Role;

/// Writes an object: the developer and the reference of a case, and how far it is.
fn put_named(alloc: Global, body: &mut Writer, line: &Line) -> Result<(), AllocError>
    ensures { OnOk result (Adds body.old body.new (named_tokens line.now)) }
{
    body.begin_object()?;
    put_text(alloc, body, "developer", line.party.as_bytes())?;
    put_text(alloc, body, "reference", line.reference.as_bytes())?;
    put_word(body, "state", state_word(line.state))?;
    body.end_object()
}

fn put_line(alloc: Global, body: &mut Writer, role: Role, line: &Line) -> Result<(), AllocError>
    ensures { OnOk result (Adds body.old body.new (line_tokens role line.now)) }
{
    match role {
        Role::Developer => put_state(alloc, body, line.reference.as_bytes(), line.state),
        Role::Reviewer => put_named(alloc, body, line),
    }
}

#[tactic(auto, using(crate::proofs::Adding::adds_more))]
fn put_lines(alloc: Global, body: &mut Writer, role: Role, lines: &[Line]) -> Result<(), AllocError>
    ensures { OnOk result (Adds body.old body.new (flat_map (line_tokens role) lines.now)) }
{
    for line in lines {
        put_line(alloc, body, role, line)?;
    }
    Ok(())
}

/// The cases in a list, in their order, as a party in this role sees them.
pub fn lines_body(alloc: Global, role: Role, lines: &[Line]) -> Result<Vec<u8>, AllocError>
    ensures { IfOk result (λ body. body.items ≡ lines_body role lines.now) }
{
    let mut body = Writer::new(Vec::new(alloc));
    body.begin_object()?;
    body.key("cases")?;
    body.begin_array()?;
    put_lines(alloc, &mut body, role, lines)?;
    body.end_array()?;
    body.end_object()?;
    Ok(body.into_inner())
}
