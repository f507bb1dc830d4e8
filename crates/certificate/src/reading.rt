//! Reading a certificate.

ghost use Rattle.std.specs.Prelude.{◌≤◌, length, MatchResult};
ghost use Rattle.certificate.specs.declared.reader.TheConstants.{MOST_BYTES};
ghost use Rattle.certificate.specs.Certificates.{HasFault, IsCertificate};

use crate::entries::{Entries, Entry};
use crate::fault::ReadBad;
use crate::reader::Reader;
use sequences::Sequence;
use std::alloc::Global;

/// What a certificate says; or the first line with which something is wrong, and what that is. It knows no families, so
/// a fault is `Form`, `Count` or `Extra`.
pub fn read(alloc: Global, bytes: &[u8]) -> Result<Entries, ReadBad>
    requires { length bytes.now ≤ MOST_BYTES }
    ensures { MatchResult result (λ read. IsCertificate bytes.now read.header read.list) (HasFault bytes.now) }
{
    let mut reader = Reader::new(alloc, bytes);
    let header = reader.header()?;
    let mut list = Vec::new(alloc);
    while let Some(hull) = reader.hull(list.len())? {
        let cuts = reader.cuts()?;
        list.push(Entry { hull, cuts })?;
    }
    reader.finish()?;
    Ok(Entries {
        header,
        list: Sequence::from_vec(list),
    })
}
