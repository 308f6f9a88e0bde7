//! The name of a table's history.

ghost use Rattle.std.specs.Prelude.{[]};
ghost use Rattle.atomic_table.specs.Seated.{TableId};

use std::marker::Brand;

/// A type parameter that names a log. It has no values and no code. A table with such a parameter has the log of that
/// name, and a writer with the parameter writes to that log.
pub trait LeaseNaming {
    ghost log: { TableId };
}

impl LeaseNaming for Brand {
    ghost log = { record {
      words = 0;
      slots = 0;
      views_name = 0;
      atom = 0;
      block = 0;
      offset = 0;
      slot_names = [];
    } };
}
