ghost use Rattle.std.specs.Prelude.{◌≡◌, ◌≤◌, ◌<◌, ◌^◌, length, IfOk, nat_eq};
ghost use Rattle.std.specs.List.{starts_with};
ghost use Rattle.vet_base.specs.Script.{Gives};
ghost use Rattle.dex_tables.specs.Headers.{magic, section_at, file_size_at, header_at};
ghost use Rattle.dex_tables.specs.Parts.{u4_at};

use crate::fault::{Fault, Field, ReadError};
use vet_base::{Stop, read_u4};

/// How many bytes a header has.
const HEADER: u32 = 112;
/// The tag of a file whose numbers stand with their low byte first.
const ENDIAN: u32 = 0x1234_5678;

/// A table: how many rows it has, and its offset.
#[derive(Clone, Copy)]
pub struct Section {
    pub size: u32,
    pub at: u32,
}

/// The size of the file, and its six tables.
#[derive(Clone, Copy)]
pub struct Header {
    pub file_size: u32,
    pub strings: Section,
    pub types: Section,
    pub protos: Section,
    pub fields: Section,
    pub methods: Section,
    pub classes: Section,
}

fn starts_with_magic(bytes: &[u8]) -> bool
    ensures { result ≡ starts_with nat_eq bytes.now magic }
{
    bytes.starts_with(b"dex\n035\0".as_slice())
}

fn number_of(bytes: &[u8], at: usize) -> Result<(u32, usize), ReadError>
    ensures { Gives (λ x. x) result (u4_at bytes.now at 0) }
{
    match read_u4(bytes, at) {
        Some(x) => Ok(x),
        None => Err(Stop::Fault(Fault::Outside(0))),
    }
}

#[tactic(auto, unfolding(crate::specs::Headers::section_at), using(vet_base::proofs::Scripts::run_bind))]
fn section_of(bytes: &[u8], at: usize) -> Result<Section, ReadError>
    ensures { Gives (λ x. x) result (section_at bytes.now at) }
{
    let (size, next) = number_of(bytes, at)?;
    let (at, _) = number_of(bytes, next)?;
    Ok(Section { size, at })
}

#[tactic(auto, unfolding(crate::specs::Headers::file_size_at), using(vet_base::proofs::Scripts::run_bind))]
fn file_size_of(bytes: &[u8]) -> Result<u32, ReadError>
    ensures value { Gives (λ x. x) result (file_size_at bytes.now) }
    ensures within { IfOk result (λ n. n ≤ length bytes.now) }
{
    if !starts_with_magic(bytes) {
        return Err(Stop::Fault(Fault::Magic));
    }
    if bytes.len() < HEADER as usize {
        return Err(Stop::Fault(Fault::Outside(0)));
    }
    let (file_size, _) = number_of(bytes, 32)?;
    if file_size < HEADER || file_size as usize > bytes.len() {
        return Err(Stop::Fault(Fault::Header(Field::FileSize)));
    }
    let (header_size, _) = number_of(bytes, 36)?;
    if header_size != HEADER {
        return Err(Stop::Fault(Fault::Header(Field::HeaderSize)));
    }
    let (tag, _) = number_of(bytes, 40)?;
    if tag != ENDIAN {
        return Err(Stop::Fault(Fault::Header(Field::EndianTag)));
    }
    Ok(file_size)
}

/// The header, of which the first eight bytes are the magic.
#[tactic(auto, unfolding(crate::specs::Headers::header_at), using(vet_base::proofs::Scripts::run_bind))]
pub fn header_of(bytes: &[u8]) -> Result<Header, ReadError>
    ensures value { Gives (λ h. h) result (header_at bytes.now) }
    ensures within { IfOk result (λ h. h.file_size ≤ length bytes.now) }
{
    let file_size = file_size_of(bytes)?;
    let strings = section_of(bytes, 56)?;
    let types = section_of(bytes, 64)?;
    let protos = section_of(bytes, 72)?;
    let fields = section_of(bytes, 80)?;
    let methods = section_of(bytes, 88)?;
    let classes = section_of(bytes, 96)?;
    Ok(Header {
        file_size,
        strings,
        types,
        protos,
        fields,
        methods,
        classes,
    })
}
