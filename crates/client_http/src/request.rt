ghost use Rattle.std.specs.Prelude.{◌≡◌, ◌≤◌, ◌++◌, length, IsTrue, IfOk, IfErr};
ghost use Rattle.form_fields.specs.Spelling.{is_token};
ghost use Rattle.store_office.specs.Reference.{is_reference};
ghost use Rattle.client_head.specs.Heads.{request_head};
ghost use Rattle.client_http.specs.Submissions.{content_with, AreTexts, HasNoText, Joins, Makes, MakesFrom};
ghost use Rattle.client_http.specs.ReadAs.{IsReadAs};

use case_rules::Content;
use client_body::{Texts, body_of, least_size};
use client_head::request_head;
use std::alloc::{AllocError, Global};
use vet_base::{Name, Shared};

/// The most bytes of a body.
const BODY_LIMIT: usize = 67_108_864;

/// Why a submission is not made.
#[derive(Clone, Copy, Debug, PartialEq, Eq)]
pub enum MakeFault {
    /// The manifest (0), the layouts (1) or the declaration (2) is the first that is not UTF-8.
    NotText(u8),
    /// The body has more than 67,108,864 bytes.
    TooLong,
    Memory,
}

/// The texts of an app, where all three are UTF-8.
#[tactic(auto, using(desk_routes::proofs::Utf8::reads, desk_routes::proofs::Utf8::no_text))]
fn texts_of(content: &Content) -> Result<Texts<'_>, MakeFault>
    ensures ok { IfOk result (λ texts. AreTexts content.now
        texts.manifest.now texts.layouts.now texts.declaration.now) }
    ensures err { IfErr result (HasNoText content.now) }
{
    let Ok(manifest) = std::str::from_utf8(content.manifest.as_slice()) else {
        return Err(MakeFault::NotText(0));
    };
    let Ok(layouts) = std::str::from_utf8(content.layouts.as_slice()) else {
        return Err(MakeFault::NotText(1));
    };
    let Ok(declaration) = std::str::from_utf8(content.declaration.as_slice()) else {
        return Err(MakeFault::NotText(2));
    };
    Ok(Texts {
        manifest,
        layouts,
        declaration,
    })
}

/// A reference as a text.
#[tactic(auto, using(crate::proofs::References::reference_is_text))]
fn text_of(reference: &Name) -> &str
    requires { IsTrue (is_reference reference.now) }
    ensures { result.now ≡ reference.now }
{
    match std::str::from_utf8(reference.as_bytes()) {
        Ok(text) => text,
        Err(_) => unreachable!(),
    }
}

/// The head for a body, and the body behind it.
fn with_head(alloc: Global, token: &[u8], body: &str) -> Result<Vec<u8>, AllocError>
    requires token { IsTrue (is_token token.now) }
    requires few { length body.now ≤ 67108864 }
    ensures { IfOk result (λ bytes. bytes.items ≡ request_head token.now (length body.now) ++ body.now) }
{
    let mut bytes = request_head(alloc, token, body.len())?;
    bytes.extend_from_slice(body.as_bytes())?;
    Ok(bytes)
}

/// The same, of a body that may be too long.
fn with_limit(alloc: Global, token: &[u8], body: &str) -> Result<Vec<u8>, MakeFault>
    requires { IsTrue (is_token token.now) }
    ensures { Joins token.now body.now result }
{
    if body.len() > BODY_LIMIT {
        return Err(MakeFault::TooLong);
    }
    match with_head(alloc, token, body) {
        Ok(bytes) => Ok(bytes),
        Err(_) => Err(MakeFault::Memory),
    }
}

/// The submission of an app of these texts and files.
fn of_parts(
    alloc: Global,
    token: &[u8],
    reference: &str,
    texts: &Texts<'_>,
    dex: &[Shared<u8>],
) -> Result<Vec<u8>, MakeFault>
    requires token { IsTrue (is_token token.now) }
    requires reference { IsTrue (is_reference reference.now) }
    requires dex { (1 ≤ length dex.now) × (length dex.now ≤ 16) }
    ensures made { MakesFrom token.now reference.now (content_with texts.now.manifest.now texts.now.layouts.now
        texts.now.declaration.now dex.now) result }
    ensures read { IfOk result (λ bytes. IsReadAs token.now reference.now (content_with texts.now.manifest.now
        texts.now.layouts.now texts.now.declaration.now dex.now) bytes.items) }
{
    let Ok(body) = body_of(alloc, reference, texts, dex) else {
        return Err(MakeFault::Memory);
    };
    with_limit(alloc, token, body.as_str())
}

/// The submission of an app whose texts these are.
#[tactic(auto, using(crate::proofs::Requested::too_large))]
fn of_texts(
    alloc: Global,
    token: &Name,
    reference: &Name,
    content: &Content,
    texts: &Texts<'_>,
) -> Result<Vec<u8>, MakeFault>
    requires token { IsTrue (is_token token.now) }
    requires reference { IsTrue (is_reference reference.now) }
    requires dex { (1 ≤ length content.now.dex) × (length content.now.dex ≤ 16) }
    requires texts { AreTexts content.now texts.now.manifest.now texts.now.layouts.now texts.now.declaration.now }
    ensures made { Makes token.now reference.now content.now result }
    ensures read { IfOk result (λ bytes. IsReadAs token.now reference.now content.now bytes.items) }
{
    let least = least_size(content);
    if least > BODY_LIMIT {
        return Err(MakeFault::TooLong);
    }
    of_parts(
        alloc,
        token.as_bytes(),
        text_of(reference),
        texts,
        content.dex.as_slice(),
    )
}

/// The submission of an app under a reference by the developer with this token: the line `POST /cases HTTP/1.1`, the
/// fields `host`, `x-desk-token` and `content-length`, an empty line, and the app as JSON. The desk reads these bytes
/// as that submission.
#[tactic(auto, using(crate::proofs::Requested::refused))]
pub fn request_bytes(
    alloc: Global,
    token: &Name,
    reference: &Name,
    content: &Content,
) -> Result<Vec<u8>, MakeFault>
    requires token { IsTrue (is_token token.now) }
    requires reference { IsTrue (is_reference reference.now) }
    requires dex { (1 ≤ length content.now.dex) × (length content.now.dex ≤ 16) }
    ensures made { Makes token.now reference.now content.now result }
    ensures read { IfOk result (λ bytes. IsReadAs token.now reference.now content.now bytes.items) }
{
    match texts_of(content) {
        Ok(texts) => of_texts(alloc, token, reference, content, &texts),
        Err(fault) => Err(fault),
    }
}
