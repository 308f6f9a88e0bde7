//! A manifest that refers to nothing. A rewritten log puts it into a repository and deletes it, in place of a record that
//! created the repository and is not kept.

/// An image index without manifests (OCI Image Specification 1.1, "Image Index").
pub const EMPTY_INDEX: &[u8] =
    b"{\"schemaVersion\":2,\"mediaType\":\"application/vnd.oci.image.index.v1+json\",\"manifests\":[]}";

/// The text of the SHA-256 digest of `EMPTY_INDEX`.
pub const EMPTY_INDEX_DIGEST: &[u8] =
    b"sha256:dff9de10919148711140d349bf03f1a99eb06f94b03e51715ccebfa7cdc518e2";
