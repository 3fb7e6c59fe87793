ghost use Rattle.std.specs.Prelude.{◌≡◌, ◌≤◌, map, codes, Some, length, IsTrue, IfOk, IsUtf8, string_bytes};
ghost use Rattle.serde_json.specs.Data.{string, array, object, member, no_members};
ghost use Rattle.serde_json.specs.View.{view, items_view};
ghost use Rattle.store_office.specs.Reference.{is_reference};
ghost use Rattle.desk_routes.specs.Bodies.{decoded, all_decoded};
ghost use Rattle.client_body.specs.Bodies.{dex_text, body_text, IsSubmission};

use base64::engine::general_purpose::STANDARD;
use serde_json::{Value, json};
use std::alloc::{AllocError, Global};
use vet_base::Shared;

/// The texts of an app.
#[derive(Drop)]
pub struct Texts<'c> {
    pub manifest: &'c str,
    pub layouts: &'c str,
    pub declaration: &'c str,
}

/// A DEX file as a text in base64.
#[tactic(auto, unfolding(crate::specs::Bodies::dex_text, desk_routes::specs::Bodies::decoded))]
fn dex_value(alloc: Global, file: &[u8]) -> Result<Value, AllocError>
    ensures text { IfOk result (λ value. view value ≡ dex_text file.now) }
    ensures decoded { IfOk result (λ value. decoded (view value) ≡ Some file.now) }
{
    Ok(Value::String(STANDARD.encode(alloc, file)?))
}

/// The DEX files as texts in base64.
#[tactic(auto, using(crate::proofs::Encoded::begins, crate::proofs::Encoded::texts_done, crate::proofs::Encoded::decoded_done))]
fn dex_values(alloc: Global, files: &[Shared<u8>]) -> Result<Vec<Value>, AllocError>
    ensures texts { IfOk result (λ values. map view values.items ≡ map dex_text files.now) }
    ensures decoded { IfOk result (λ values. all_decoded (map view values.items) ≡ Some files.now) }
{
    let mut values = Vec::new(alloc);
    for file in files {
        let value = dex_value(alloc, file.as_slice())?;
        values.push(value)?;
    }
    Ok(values)
}

/// The members of the body.
fn members(
    alloc: Global,
    reference: &str,
    texts: &Texts<'_>,
    dex: Vec<Value>,
) -> Result<Value, AllocError>
    ensures { IfOk result (λ value. view value ≡ object
        (member (codes "declaration") (string texts.now.declaration.now)
        (member (codes "dex") (array (items_view dex.items))
        (member (codes "layouts") (string texts.now.layouts.now)
        (member (codes "manifest") (string texts.now.manifest.now)
        (member (codes "reference") (string reference.now) no_members)))))) }
{
    json!(in alloc; {
        "declaration": texts.declaration,
        "dex": Value::Array(dex),
        "layouts": texts.layouts,
        "manifest": texts.manifest,
        "reference": reference
    })
}

/// The body of a submission: an object with the keys `declaration`, `dex`, `layouts`, `manifest` and `reference`, where
/// the DEX files are texts in base64. The desk reads it as the command to submit that app under this reference.
pub fn body_of(
    alloc: Global,
    reference: &str,
    texts: &Texts<'_>,
    dex: &[Shared<u8>],
) -> Result<String, AllocError>
    requires reference { IsTrue (is_reference reference.now) }
    requires dex { (1 ≤ length dex.now) × (length dex.now ≤ 16) }
    ensures text { IfOk result (λ text. string_bytes text ≡ body_text reference.now texts.now.manifest.now
        texts.now.layouts.now texts.now.declaration.now dex.now) }

    // Each `String` is UTF-8.
    ensures read { IfOk result (λ text. IsUtf8 (string_bytes text) → IsSubmission reference.now (record {
      manifest = texts.now.manifest.now;
      layouts = texts.now.layouts.now;
      declaration = texts.now.declaration.now;
      dex = dex.now;
    }) (string_bytes text)) }
{
    let values = dex_values(alloc, dex)?;
    let value = members(alloc, reference, texts, values)?;
    let text = value.to_string(alloc)?;
    Ok(text)
}
