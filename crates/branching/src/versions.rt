// The version of a certificate's text.
ghost use Rattle.std.specs.Prelude.{◌≡◌, ◌≤◌, ◌<◌, ℕ};
ghost use Rattle.cert_lines.specs.declared.limits.TheConstants.{LOTS_CERT_VERSION};
ghost use Rattle.certificate.specs.Limits.{IsWritable};
ghost use Rattle.certificate.specs.Shapes.{shape_of};
ghost use Rattle.leaf_growth.specs.Written.{HasVersion};
ghost use Rattle.branching.specs.Search.{IsUsualVersion, in_version};

use certificate::{Certificate, FIRST_CERT_VERSION, LOTS_CERT_VERSION, is_writable};
use lot_model::{Instance, is_plain};

/// The usual version of a certificate's text: the first one where the model is plain, and else that of least lots and late
/// ones.
pub(crate) fn usual_version(instance: &Instance) -> u32
    ensures usual { IsUsualVersion instance.now result }
    ensures known { HasVersion instance.now result }
    ensures at_most { result ≤ LOTS_CERT_VERSION }
{
    if is_plain(instance) {
        FIRST_CERT_VERSION
    } else {
        LOTS_CERT_VERSION
    }
}

/// A certificate of the least version, from the usual one to its own, in which it has a text. It is linear in the
/// certificate, and takes no memory.
pub(crate) fn in_least_version(mut certificate: Certificate, usual: u32) -> Certificate
    requires { usual ≤ certificate.version }
    ensures claim { result.claim ≡ certificate.claim }
    ensures cuts { result.cuts ≡ certificate.cuts }
    ensures tree { result.tree ≡ certificate.tree }
    ensures from { usual ≤ result.version }
    ensures at_most { result.version ≤ certificate.version }
    ensures written { IsWritable (shape_of certificate) → IsWritable (shape_of result) }
    ensures least { (version : ℕ) → usual ≤ version → version < result.version
        → IsWritable (in_version version (shape_of result)) → ⊥ }
{
    let own = certificate.version;
    for version in usual..own {
        certificate.version = version;
        if is_writable(&certificate) {
            return certificate;
        }
    }
    certificate.version = own;
    certificate
}
