//! The certificate of the parts of an app.

ghost use Rattle.std.specs.Prelude.{◌≡◌, ◌≢◌, true, false, IfOk};
ghost use Rattle.vetting_desk.specs.Sets.{set_of, analysis_of};
ghost use Rattle.certificate.specs.Cert.{IsCert};
ghost use Rattle.verdict.specs.Table.{IsTable};
ghost use Rattle.vetting_desk.specs.PartsDue.{digest_of};
ghost use Rattle.app_folder.specs.Reading.{AreShort};

use cert_rows::Set;
use certificate::write_cert;
use fact_rows::Row;
use std::alloc::Global;
use verdict::{Analysis, Parts};
use vet_base::Memory;

/// The digest of the parts.
pub fn digest_of(parts: &Parts) -> [u8; 32]
    requires { AreShort parts.now }
    ensures { result ≡ digest_of parts.now }
{
    certificate::digest_of(
        parts.manifest.as_slice(),
        parts.layouts.as_slice(),
        parts.declaration.as_slice(),
        parts.lists.as_slice(),
        parts.dex.as_slice(),
    )
}

/// The set of rules by which the analysis goes.
fn set_of(analysis: Analysis) -> Set
    ensures { result ≡ set_of analysis }
{
    match analysis {
        Analysis::Paths => Set::Paths,
        Analysis::Cells => Set::Cells,
    }
}

/// The analysis by the set of rules.
pub fn analysis_of(set: Set) -> Analysis
    ensures { result ≡ analysis_of set }
{
    match set {
        Set::Paths => Analysis::Paths,
        Set::Cells => Analysis::Cells,
    }
}

/// The certificate of the parts and of the table that follows from them by an analysis.
pub fn certificate_of(
    alloc: Global,
    parts: &Parts,
    analysis: Analysis,
    rows: &[Row],
) -> Result<Vec<u8>, Memory>
    requires short { AreShort parts.now }
    requires table { IsTable (record { analysis = analysis; rows = rows.now }) }
    ensures { IfOk result (λ bytes. IsCert bytes.items (set_of analysis) (digest_of parts.now) rows.now) }
{
    write_cert(alloc, set_of(analysis), &digest_of(parts), rows)
}

/// Whether the digests are the same.
pub fn same_digest(one: &[u8; 32], other: &[u8; 32]) -> bool
    ensures same { result ≡ true → one.now ≡ other.now }
    ensures apart { result ≡ false → one.now ≢ other.now }
{
    *one == *other
}
