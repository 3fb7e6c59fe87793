//! The words for what the reader of certificates answers.
ghost use Rattle.std.specs.List.{All};
ghost use Rattle.cert_rows.specs.Fitting.{IsKnown};
ghost use Rattle.certificate.specs.Cert.{IsCert};

use certificate::{Cert, CertFault, read_cert, write_cert};
use std::alloc::{AllocError, Global};
use vet_base::Stop;

/// What the reader says of the bytes: `ok` where it reads them and what it read is written as they are.
pub fn answer_to(alloc: Global, bytes: &[u8]) -> Result<String, AllocError> {
    match read_cert(alloc, bytes) {
        Ok(cert) => written(alloc, &cert, bytes),
        Err(Stop::Memory) => format!(in alloc; "memory"),
        Err(Stop::Fault(fault)) => told(alloc, fault),
    }
}

fn written(alloc: Global, cert: &Cert, bytes: &[u8]) -> Result<String, AllocError>
    requires is { IsCert bytes.now cert.now.set cert.now.digest cert.now.rows }
    requires known { All (IsKnown cert.now.set) cert.now.rows }
{
    match write_cert(alloc, cert.set, &cert.digest, cert.rows.as_slice()) {
        Ok(again) if again.as_slice() == bytes => format!(in alloc; "ok"),
        Ok(_) => format!(in alloc; "written otherwise"),
        Err(_) => format!(in alloc; "memory"),
    }
}

fn told(alloc: Global, fault: CertFault) -> Result<String, AllocError> {
    match fault {
        CertFault::Magic => format!(in alloc; "magic"),
        CertFault::Cut(at) => format!(in alloc; "cut at {at}"),
        CertFault::Order(at) => format!(in alloc; "order at {at}"),
        CertFault::Bad(at) => format!(in alloc; "bad at {at}"),
        CertFault::Rest(at) => format!(in alloc; "rest at {at}"),
        CertFault::Version => format!(in alloc; "version"),
    }
}
