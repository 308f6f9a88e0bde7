//! Repository names.
ghost use Rattle.std.specs.Prelude.{◌≡◌, ◌==◌, length, position, IfOk, IfErr, Some, refl, bytes_eq};
ghost use Rattle.std.specs.Ordering.{nat_cmp};
ghost use Rattle.std.specs.Cmp.{partial_equiv_from_equiv};
ghost use Rattle.std.specs.Cmp.Lexicographic.{slice_cmp, nat_list_eq_equiv, nat_list_cmp_total, texts_po, texts_ties};
ghost use Rattle.blob_digest.specs.NameMachine.{AgreesWithTest};
ghost use Rattle.blob_digest.specs.Names.{IsComponent, IsNameRefusal, IsRepoName, tenant_name};

use crate::name::is_path;
use crate::refusal::Refusal;
use std::alloc::{AllocError, Global};
use std::cmp::Ordering;
use std::marker::Model;
use std::{fmt, str};

/// The maximum length of a repository's name, in bytes.
const MAX_NAME: usize = 255;

/// The name of a repository: components joined by `/`, at most 255 bytes (OCI Distribution Specification 1.1,
/// "Pulling manifests").
///
/// The first component is the name of the tenant. Contracts see a name as its text. Names are ordered by the bytes of
/// their texts.
#[derive(Debug, Drop)]
pub struct RepoName {
    text: String,
    tenant_len: usize,
}

impl Model for RepoName {
    ghost use Rattle.std.specs.Prelude.{List, ℕ, string_bytes};
    ghost use Rattle.blob_digest.specs.Names.{IsNamed};

    ghost Value = { List ℕ };

    ghost view = { λ a. string_bytes a.text };

    ghost invariant = { λ a. IsNamed (string_bytes a.text) a.tenant_len };
}

/// Returns the position of the first `/`.
fn first_slash(text: &[u8]) -> Option<usize>
    ensures { result ≡ position (λ b. b == 47) text.now }
{
    text.iter().position(|b| *b == b'/')
}

/// Returns the length of the first component, in bytes.
fn tenant_len(text: &[u8]) -> usize
    ensures { result ≡ length (tenant_name text.now) }
{
    match first_slash(text) {
        Some(slash) => slash,
        None => text.len(),
    }
}

/// Returns the bytes as a text. They are ASCII by the grammar.
fn ascii(text: &[u8]) -> &str
    requires { IsRepoName text.now }
    ensures { result.now ≡ text.now }
{
    match str::from_utf8(text) {
        Ok(text) => text,
        Err(_) => unreachable!(),
    }
}

impl RepoName {
    /// Parses the name of a repository.
    ///
    /// # Errors
    ///
    /// - `NameInvalid`: the text is not a name, or has more than 255 bytes.
    /// - `Memory`: allocation of the copy fails.
    ///
    /// # Cost
    ///
    /// Linear in the length of the text. The call allocates one copy of it.
    #[tactic(auto, using(crate::proofs::NameGrammar::name_passes, crate::proofs::NameGrammar::no_name_fails))]
    pub fn parse(alloc: Global, text: &[u8]) -> Result<RepoName, Refusal>
        ensures value { IfOk result (λ name. (name ≡ text.now) × IsRepoName text.now) }
        ensures refused { IfErr result (λ e. IsNameRefusal text.now e) }
        ensures tested { AgreesWithTest text.now result }
    {
        if text.len() > MAX_NAME {
            return Err(Refusal::NameInvalid);
        }
        if !is_path(text) {
            return Err(Refusal::NameInvalid);
        }
        let tenant_len = tenant_len(text);
        let text = String::from_str(alloc, ascii(text))?;
        Ok(RepoName { text, tenant_len })
    }

    /// Returns the whole name, of 1 to 255 bytes.
    pub fn text(&self) -> &str
        ensures value { result.now ≡ self.now }
        ensures grammar { IsRepoName self.now }
    {
        self.text.as_str()
    }

    /// Returns the name of the repository's tenant: the first component.
    ///
    /// # Cost
    ///
    /// Constant, because the length of the first component is stored.
    pub fn tenant(&self) -> &str
        ensures value { result.now ≡ tenant_name self.now }
        ensures grammar { IsComponent (tenant_name self.now) }
        ensures name { IsRepoName self.now }
    {
        &self.text.as_str()[..self.tenant_len]
    }
}

impl Clone for RepoName {
    ghost is_clone = { λ name copy. copy ≡ name };

    fn clone(&self) -> Result<RepoName, AllocError> {
        Ok(RepoName {
            text: self.text.clone()?,
            tenant_len: self.tenant_len,
        })
    }
}

impl PartialEq for RepoName {
    ghost eq = { bytes_eq };

    ghost laws = { partial_equiv_from_equiv nat_list_eq_equiv };

    fn eq(&self, other: &RepoName) -> bool {
        self.text() == other.text()
    }
}

impl Eq for RepoName {
    ghost laws = { nat_list_eq_equiv };
}

impl PartialOrd for RepoName {
    ghost partial_cmp = { λ a b. Some (slice_cmp nat_cmp a b) };

    ghost laws = { texts_po };

    fn partial_cmp(&self, other: &RepoName) -> Option<Ordering> {
        Some(self.cmp(other))
    }
}

impl Ord for RepoName {
    ghost cmp = { slice_cmp nat_cmp };

    ghost total = { nat_list_cmp_total };

    ghost matches_partial_cmp = { λ a b. refl };

    ghost matches_eq = { texts_ties };

    fn cmp(&self, other: &RepoName) -> Ordering {
        self.text().cmp(other.text())
    }
}

impl fmt::Display for RepoName {
    ghost output = { λ name. Some name };

    fn fmt<W: fmt::Write>(&self, f: &mut fmt::Formatter<W>) -> fmt::Result {
        f.write_str(self.text())
    }
}
