//! Reading the text of a certificate.

ghost use Rattle.std.specs.Prelude.{◌≡◌, ◌≢◌, ◌≤◌, IfOk, IfErr, IsTrue, Ok, Err};
ghost use Rattle.sf_model.specs.Paths.{all_lead};
ghost use Rattle.sf_cert_text.specs.declared.fault.CertFault.TheVariants.{NoMemory};
ghost use Rattle.sf_certificate.specs.Said.{said_by};
ghost use Rattle.sf_cert_text.specs.Reading.{cert_read};

use crate::fault::CertFault;
use crate::header::read_header;
use crate::tree::read_tree;
use sf_certificate::{Cert, TagList};
use sf_lex::Scan;
use sf_model::Paths;
use std::alloc::Global;

/// The certificate that a text of any version spells for so many blocks, or the first fault of the text.
pub fn read(alloc: Global, text: &[u8], blocks: u16) -> Result<Cert, CertFault>
    requires some { 1 ≤ blocks }
    requires few { blocks ≤ 320 }
    ensures ok { IfOk result (λ c. cert_read blocks text.now ≡ Ok (said_by c)) }
    ensures lead { IfOk result (λ c. IsTrue (all_lead c.paths)) }
    ensures blocks { IfOk result (λ c. c.blocks ≡ blocks) }
    ensures fault { IfErr result (λ e. e ≢ NoMemory → cert_read blocks text.now ≡ Err e) }
{
    let mut scan = Scan::new(text);
    let header = read_header(alloc, &mut scan, text, blocks)?;
    let tags = read_tree(alloc, &mut scan, text, header.version, blocks)?;
    let tags = TagList::from_vec(alloc, tags)?;
    Ok(Cert {
        blocks,
        plan: header.plan,
        cost: header.cost,
        bound: header.bound,
        paths: header.paths,
        tags,
    })
}

/// The paths in the header of a text. The tree is not read.
///
/// A text that has no paths, as each of the first two versions, is answered by paths with none on either axis. Where
/// the header isn't that of a certificate of so many blocks, the answer is the header's first fault. Where the
/// header stands and the tree is at fault, the text is no certificate either, and the answer is the header's paths.
pub fn stored_paths(alloc: Global, text: &[u8], blocks: u16) -> Result<Paths, CertFault>
    ensures paths { IfOk result (λ paths.
        IfOk (cert_read blocks text.now) (λ said. said.paths ≡ paths)) }
    ensures fault { IfErr result (λ e. e ≢ NoMemory → cert_read blocks text.now ≡ Err e) }
{
    let mut scan = Scan::new(text);
    let header = read_header(alloc, &mut scan, text, blocks)?;
    Ok(header.paths)
}
