//! The text that says why a certificate is refused. Each function adds its text at the end; after
//! want of memory a part of it may be there.
ghost use Rattle.std.specs.Prelude.{◌≡◌, ◌++◌, codes, OnOk, IfOk};
ghost use Rattle.std.specs.Fmt.{decimal};
ghost use Rattle.hex.specs.Hex.{encode_lower};
ghost use Rattle.cert_report.specs.Refusal.{fault_text, digests_text, row_text, reason_text, refusal_text};

use crate::CertRefusal;
use crate::spelled::spelled;
use certificate::CertFault;
use fact_rows::Row;
use printed_text::{put, put_number};
use std::alloc::Global;
use vet_base::Memory;

type Text = Vec<u8>;

/// Adds a word, and an offset in decimal digits.
fn put_at(alloc: Global, text: &mut Text, word: &[u8], at: usize) -> Result<(), Memory>
    ensures { OnOk result (text.new.items ≡ text.old.items ++ (word.now ++ decimal at)) }
{
    put(text, word)?;
    put_number(alloc, text, at)
}

/// Adds bytes, each as two hexadecimal digits.
fn put_hex(alloc: Global, text: &mut Text, bytes: &[u8]) -> Result<(), Memory>
    ensures { OnOk result (text.new.items ≡ text.old.items ++ encode_lower bytes.now) }
{
    let digits = hex::encode(alloc, bytes)?;
    put(text, digits.as_bytes())
}

#[tactic(auto, unfolding(crate::specs::Refusal::fault_text))]
fn put_fault(alloc: Global, text: &mut Text, fault: CertFault) -> Result<(), Memory>
    ensures { OnOk result (text.new.items ≡ text.old.items ++ fault_text fault) }
{
    match fault {
        CertFault::Magic => put(text, b"magic".as_slice()),
        CertFault::Version => put(text, b"version 1".as_slice()),
        CertFault::Cut(at) => put_at(alloc, text, b"cut at ".as_slice(), at),
        CertFault::Order(at) => put_at(alloc, text, b"order at ".as_slice(), at),
        CertFault::Bad(at) => put_at(alloc, text, b"bad at ".as_slice(), at),
        CertFault::Rest(at) => put_at(alloc, text, b"rest at ".as_slice(), at),
    }
}

/// Adds the digest of a certificate and that of the files.
#[tactic(auto, unfolding(crate::specs::Refusal::digests_text))]
fn put_digests(
    alloc: Global,
    text: &mut Text,
    told: &[u8; 32],
    wanted: &[u8; 32],
) -> Result<(), Memory>
    ensures { OnOk result (text.new.items ≡ text.old.items ++ digests_text told.now wanted.now) }
{
    put(text, b"digest ".as_slice())?;
    put_hex(alloc, text, told.as_slice())?;
    put(text, b" ".as_slice())?;
    put_hex(alloc, text, wanted.as_slice())
}

/// Adds a word, and the bytes of a row as a certificate spells it, in small hexadecimal letters.
#[tactic(auto, unfolding(crate::specs::Refusal::row_text))]
pub fn put_row_text(alloc: Global, text: &mut Text, word: &[u8], row: &Row) -> Result<(), Memory>
    ensures { OnOk result (text.new.items ≡ text.old.items ++ row_text word.now row.now) }
{
    put(text, word)?;
    let bytes = spelled(alloc, row)?;
    put_hex(alloc, text, &bytes)
}

#[tactic(auto, unfolding(crate::specs::Refusal::reason_text))]
fn put_reason(alloc: Global, text: &mut Text, refusal: &CertRefusal) -> Result<(), Memory>
    ensures { OnOk result (text.new.items ≡ text.old.items ++ reason_text refusal.now) }
{
    match refusal {
        CertRefusal::Fault(fault) => put_fault(alloc, text, *fault),
        CertRefusal::Digest(told, wanted) => put_digests(alloc, text, told, wanted),
        CertRefusal::Stranger(row) => put_row_text(alloc, text, b"stranger ".as_slice(), row),
        CertRefusal::NoStart(row) => put_row_text(alloc, text, b"no start ".as_slice(), row),
        CertRefusal::NotClosed(row) => put_row_text(alloc, text, b"not closed ".as_slice(), row),
    }
}

/// The line that says why a certificate is refused: `certificate refused: ` and `magic`, `version 1`,
/// `cut at N`, `order at N`, `bad at N` or `rest at N` with an offset in the file; `digest A B` with
/// the digest in the certificate and that of the files; or `stranger HEX`, `no start HEX` or `not
/// closed HEX` with the bytes of a row as a certificate spells it. Bytes are in small hexadecimal
/// letters. The line ends with a line feed.
#[tactic(auto, unfolding(crate::specs::Refusal::refusal_text))]
pub fn report_refusal(alloc: Global, refusal: &CertRefusal) -> Result<Vec<u8>, Memory>
    ensures { IfOk result (λ t. t.items ≡ refusal_text refusal.now) }
{
    let mut text = Vec::new(alloc);
    put(&mut text, b"certificate refused: ".as_slice())?;
    put_reason(alloc, &mut text, refusal)?;
    put(&mut text, b"\n".as_slice())?;
    Ok(text)
}
