//! The text of a book, written line by line. No memory is allocated.

ghost use Rattle.std.specs.Prelude.{◌≡◌, ◌<◌, length};
ghost use Rattle.store_model.specs.BookText.{blob_line, manifest_line, manifest_row, repository_line, session_line};
ghost use Rattle.store_book.specs.Printing.{Prints};
ghost use Rattle.store_book.specs.Internal.Lines.{CanPrint, PrintsBlobs, PrintsBook, PrintsManifests, PrintsRepo, PrintsRepos, PrintsSessions, PrintsTenant, PrintsUse, blob_row, links_to as links_counted};

use blob_digest::{Digest, RepoName};
use link_table::Links;
use oci_manifest::Manifest;
use slot_table::SlotTable;
use std::io::{self, Write};
use upload_table::Uploads;

/// The tables that the text of a book is printed from.
#[derive(Drop)]
struct Tables<'a> {
    links: &'a Links,
    uploads: &'a Uploads,
    slots: &'a SlotTable,
}

/// Returns how many links the slots count for a digest: 0 if it has no slot.
fn links_to(slots: &SlotTable, digest: &Digest) -> u32
    ensures { result ≡ links_counted slots.now digest.now }
{
    match slots.find(digest) {
        Some(slot) => slots.links(slot),
        None => 0,
    }
}

/// Prints a blob's line.
fn print_blob_line<W: Write>(
    writer: &mut W,
    digest: Digest,
    size: u64,
    links: u32,
) -> io::Result<()>
    ensures { Prints W.contents writer.old writer.new result (blob_line digest size links) }
{
    writeln!(writer, "blob {digest} size {size} links {links}")
}

/// Prints the line of a blob, from its digest and its size.
fn print_blob<W: Write>(writer: &mut W, slots: &SlotTable, blob: (Digest, u64)) -> io::Result<()>
    ensures { Prints W.contents writer.old writer.new result (blob_row slots.now blob) }
{
    let links = links_to(slots, &blob.0);
    print_blob_line(writer, blob.0, blob.1, links)
}

/// Prints a manifest's line.
fn print_manifest_line<W: Write>(
    writer: &mut W,
    digest: Digest,
    size: usize,
    refs: usize,
) -> io::Result<()>
    ensures { Prints W.contents writer.old writer.new result (manifest_line digest size refs) }
{
    writeln!(writer, "manifest {digest} size {size} refs {refs}")
}

/// Prints the line of a manifest, which has this digest.
fn print_manifest<W: Write>(writer: &mut W, digest: Digest, manifest: &Manifest) -> io::Result<()>
    ensures { Prints W.contents writer.old writer.new result (manifest_row (digest, manifest.now)) }
{
    let size = manifest.bytes().len();
    let refs = manifest.refs().len();
    print_manifest_line(writer, digest, size, refs)
}

/// Prints a session's line.
fn print_session<W: Write>(writer: &mut W, number: u32, received: u64) -> io::Result<()>
    ensures { Prints W.contents writer.old writer.new result (session_line number received) }
{
    writeln!(writer, "session {number} received {received}")
}

/// Prints the lines of a repository's blobs.
fn print_blobs<W: Write>(
    writer: &mut W,
    links: &Links,
    slots: &SlotTable,
    repo: &RepoName,
) -> io::Result<()>
    ensures { PrintsBlobs W.contents writer.old writer.new result links.now slots.now repo.now }
{
    for blob in links.blobs(repo) {
        print_blob(writer, slots, blob)?;
    }
    Ok(())
}

/// Prints the lines of a repository's manifests.
fn print_manifests<W: Write>(writer: &mut W, links: &Links, repo: &RepoName) -> io::Result<()>
    ensures { PrintsManifests W.contents writer.old writer.new result links.now repo.now }
{
    for (digest, manifest) in links.manifests(repo) {
        print_manifest(writer, digest, manifest)?;
    }
    Ok(())
}

/// Prints the lines of a repository's sessions.
fn print_sessions<W: Write>(
    writer: &mut W,
    uploads: &Uploads,
    tenant: u16,
    repo: &RepoName,
) -> io::Result<()>
    ensures { PrintsSessions W.contents writer.old writer.new result uploads.now tenant repo.now }
{
    for (number, received) in uploads.sessions(tenant, repo) {
        print_session(writer, number, received)?;
    }
    Ok(())
}

/// Prints a repository's line.
fn print_name<W: Write>(writer: &mut W, repo: &RepoName) -> io::Result<()>
    ensures { Prints W.contents writer.old writer.new result (repository_line repo.now) }
{
    writeln!(writer, "repository {repo}")
}

/// Prints a repository's line, and those of its blobs, its manifests and its sessions.
fn print_repo<W: Write>(
    writer: &mut W,
    tables: &Tables<'_>,
    tenant: u16,
    repo: &RepoName,
) -> io::Result<()>
    ensures { PrintsRepo W.contents writer.old writer.new result tables.now tenant repo.now }
{
    print_name(writer, repo)?;
    print_blobs(writer, tables.links, tables.slots, repo)?;
    print_manifests(writer, tables.links, repo)?;
    print_sessions(writer, tables.uploads, tenant, repo)
}

/// Prints a tenant's repositories.
fn print_repos<W: Write>(writer: &mut W, tables: &Tables<'_>, tenant: u16) -> io::Result<()>
    requires { tenant < length tables.now.links.now.tenants }
    ensures { PrintsRepos W.contents writer.old writer.new result tables.now tenant }
{
    for repo in tables.links.repos(tenant) {
        print_repo(writer, tables, tenant, repo)?;
    }
    Ok(())
}

/// Prints a tenant's line.
fn print_use<W: Write>(
    writer: &mut W,
    name: &str,
    used: u64,
    quota: u64,
    next: u64,
) -> io::Result<()>
    ensures { PrintsUse W.contents writer.old writer.new result name.now used quota next }
{
    writeln!(
        writer,
        "tenant {name} used {used} quota {quota} next {next}"
    )
}

/// Prints a tenant's line and its repositories.
fn print_tenant<W: Write>(writer: &mut W, tables: &Tables<'_>, tenant: u16) -> io::Result<()>
    requires can { CanPrint tables.now.links.now tables.now.uploads.now }
    requires there { tenant < length tables.now.links.now.tenants }
    ensures { PrintsTenant W.contents writer.old writer.new result tables.now tenant }
{
    let name = tables.links.tenant_name(tenant);
    let used = tables.links.used(tenant);
    let quota = tables.links.quota(tenant);
    let next = tables.uploads.next(tenant);
    print_use(writer, name, used, quota, next)?;
    print_repos(writer, tables, tenant)
}

/// Prints the whole book.
pub(crate) fn print_book<W: Write>(
    writer: &mut W,
    links: &Links,
    uploads: &Uploads,
    slots: &SlotTable,
) -> io::Result<()>
    requires { CanPrint links.now uploads.now }
    ensures { PrintsBook W.contents writer.old writer.new result links.now uploads.now slots.now }
{
    let tables = Tables {
        links,
        uploads,
        slots,
    };
    writer.write_all(b"book\n")?;
    for tenant in 0..links.tenants() {
        print_tenant(writer, &tables, tenant)?;
    }
    writer.write_all(b"end\n")
}
