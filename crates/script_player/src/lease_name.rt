//! The names of leases.
ghost use Rattle.std.specs.Prelude.{◌≡◌, ◌≤◌, length, refl};
ghost use Rattle.std.specs.Cmp.{eq_by_cmp_equiv, partial_equiv_from_equiv, partial_order_from_total};
ghost use Rattle.std.specs.Ordering.{as_partial_cmp, eq_by_cmp};
ghost use Rattle.script_player.specs.Leases.{name_cmp};
ghost use Rattle.script_player.specs.LeaseNames.{name_cmp_total};

use std::cmp::Ordering;
use std::marker::Model;

/// The maximum length of a lease's name in bytes.
const MAX_LEASE_NAME: usize = 32;

/// A lane, and the lane's name for a lease, of at most 32 bytes.
///
/// It is a plain value of 34 bytes, so that leases outlast the rows that name them. Contracts see the pair of lane and
/// name. The order is by lane, then by the name's bytes.
#[derive(Clone, Copy, Debug)]
pub struct LeaseName {
    lane: u8,
    len: u8,
    bytes: [u8; MAX_LEASE_NAME],
}

impl Model for LeaseName {
    ghost use Rattle.std.specs.Prelude.{length, take};
    ghost use Rattle.std.proofs.Common.{arith};
    ghost use Rattle.std.proofs.lemmas.List.{length-take-le};
    ghost use Rattle.script_player.specs.Leases.{Name};
    ghost use Rattle.script_player.specs.LeaseNames.{IsPadded, padded_name};

    ghost Value = { Name };

    ghost view = { λ a. (a.lane, take a.len a.bytes) };

    ghost invariant = { λ a. IsPadded a.len a.bytes };

    ghost inverse = { λ n. record { lane = n.0; len = length n.1; bytes = padded_name n.1 } };

    ghost inverse_ok = { λ a h i. record {
      lane = a.lane;
      len = length-take-le a.len a.bytes (Prim.omega (arith, h.within, h.whole)) i;
      bytes = h.padding i;
    } };
}

impl LeaseName {
    /// Creates the name of a lease from a lane and the lane's name for it. It allocates nothing.
    pub fn new(lane: u8, name: &[u8]) -> LeaseName
        requires { length name.now ≤ 32 }
        ensures { result ≡ (lane, name.now) }
    {
        let mut bytes = [0; MAX_LEASE_NAME];
        bytes[..name.len()].copy_from_slice(name);
        LeaseName {
            lane,
            len: name.len() as u8,
            bytes,
        }
    }

    /// Returns the lane.
    fn lane(&self) -> u8
        ensures { result ≡ self.now.0 }
    {
        self.lane
    }

    /// Returns the name's bytes.
    fn text(&self) -> &[u8]
        ensures { result.now ≡ self.now.1 }
    {
        &self.bytes[..self.len as usize]
    }
}

impl PartialEq for LeaseName {
    ghost eq = { eq_by_cmp name_cmp };

    ghost laws = { partial_equiv_from_equiv (eq_by_cmp_equiv name_cmp_total) };

    fn eq(&self, other: &LeaseName) -> bool {
        self.cmp(other).is_eq()
    }
}

impl Eq for LeaseName {
    ghost laws = { eq_by_cmp_equiv name_cmp_total };
}

impl PartialOrd for LeaseName {
    ghost partial_cmp = { as_partial_cmp name_cmp };

    ghost laws = { partial_order_from_total name_cmp_total };

    fn partial_cmp(&self, other: &LeaseName) -> Option<Ordering> {
        Some(self.cmp(other))
    }
}

impl Ord for LeaseName {
    ghost cmp = { name_cmp };

    ghost total = { name_cmp_total };

    ghost matches_partial_cmp = { λ a b. refl };

    ghost matches_eq = { λ a b. refl };

    fn cmp(&self, other: &LeaseName) -> Ordering {
        self.lane()
            .cmp(&other.lane())
            .then(self.text().cmp(other.text()))
    }
}
