//! What of a damaged log is lost.

use blob_digest::Digest;
use std::fmt;

/// Something that a readable record names, and that a store cannot have any more.
#[derive(Debug, Drop)]
pub enum Loss {
    /// A repository has lost a blob.
    Blob {
        /// The name of the repository.
        repo: String,
        /// The blob's digest.
        digest: Digest,
    },
    /// A tenant has lost a blob, in a repository that is not known.
    BlobOfTenant {
        /// The tenant's name.
        tenant: String,
        /// The blob's digest.
        digest: Digest,
    },
    /// A repository has lost a manifest, because it has lost a blob to which the manifest refers.
    Manifest {
        /// The name of the repository.
        repo: String,
        /// The manifest's digest.
        digest: Digest,
    },
    /// An open upload may lack some of its bytes, and was abandoned.
    Upload {
        /// The name of the repository.
        repo: String,
        /// The number of the upload's session.
        number: u64,
    },
}

impl fmt::Display for Loss {
    fn fmt<W: fmt::Write>(&self, f: &mut fmt::Formatter<W>) -> fmt::Result {
        match self {
            Loss::Blob { repo, digest } => write!(f, "blob {digest} of {repo}"),
            Loss::BlobOfTenant { tenant, digest } => {
                write!(f, "blob {digest} of a repository of {tenant}")
            }
            Loss::Manifest { repo, digest } => write!(f, "manifest {digest} of {repo}"),
            Loss::Upload { repo, number } => write!(f, "upload {number} of {repo}"),
        }
    }
}
