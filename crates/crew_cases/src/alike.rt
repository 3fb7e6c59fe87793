ghost use Rattle.std.specs.Prelude.{◌<◌, ◌≤◌};

use crate::run::{file, want, words_of};
use heard_files::{Handing, Hearing};
use made_apps::{declaration_text, layouts_text, lists_text, made_dex, manifest_text};
use std::alloc::{AllocError, Global};
use std::marker::Sync;
use std::sync::Wait;
use std::thread::Threads;
use vet_base::{MemFiles, MemSink};
use vetting_desk::vet;
use worker_pool::{Crew, NoLookout};

/// The folder `D` with the app that is drawn from a seed.
fn drawn(alloc: Global, seed: u32, size: u32) -> Result<MemFiles, AllocError>
    requires seed { seed < 2147483648 }
    requires some { 1 ≤ size }
    requires most { size ≤ 2000 }
{
    let forms = [
        ("D/manifest.toml", manifest_text()),
        ("D/layouts.toml", layouts_text()),
        ("D/declaration.toml", declaration_text()),
        ("D/lists.toml", lists_text()),
    ];
    let mut files = Vec::new(alloc);
    for (path, text) in forms {
        files.push(file(alloc, path, text.to_vec(alloc)?)?)?;
    }
    let dex = made_dex(alloc, seed, size).map_err(want)?;
    files.push(file(alloc, "D/classes.dex", dex)?)?;
    Ok(MemFiles::new(files, Vec::new(alloc)))
}

/// Certifies the app of the folder `D` by so many workers, as the words say.
fn certify<T: Threads + Wait + Sync>(
    alloc: Global,
    rt: &T,
    files: &mut Hearing<MemFiles>,
    workers: u8,
    words: &str,
) -> Result<(), AllocError> {
    let crew = Crew {
        rt,
        lookout: &NoLookout,
        workers,
        seed: u64::from(workers),
    };
    let words = words_of(alloc, words)?;
    let mut out = Handing::over(MemSink::new(alloc, Vec::new(alloc)));
    let _ = vet(alloc, &words, files, &mut out, &crew);
    Ok(())
}

/// Whether 1, 2, 3 and 16 workers give the app that is drawn from a seed one certificate.
pub fn are_alike<T: Threads + Wait + Sync>(
    alloc: Global,
    rt: &T,
    seed: u32,
) -> Result<bool, AllocError>
    requires { seed < 2147483648 }
{
    let mut files = Hearing::over(drawn(alloc, seed, 1 + seed % 12)?);
    certify(alloc, rt, &mut files, 1, "certify D 1")?;
    certify(alloc, rt, &mut files, 2, "certify D 2")?;
    certify(alloc, rt, &mut files, 3, "certify D 3")?;
    certify(alloc, rt, &mut files, 16, "certify D 16")?;
    match files.files().files() {
        [_, _, _, _, _, (_, one), (_, two), (_, three), (_, sixteen)] => Ok(
            !one.is_empty()
                && two.as_slice() == one.as_slice()
                && three.as_slice() == one.as_slice()
                && sixteen.as_slice() == one.as_slice(),
        ),
        _ => Ok(false),
    }
}
