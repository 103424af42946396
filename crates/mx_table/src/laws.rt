//! A law of MX tables. The function does nothing: its contract is the law, and the check proves it.
ghost use Rattle.std.specs.Prelude.{◌≡◌, List, IsTrue};
ghost use Rattle.policy_core.specs.Mx.{is_mx_table};
ghost use Rattle.policy_core.specs.declared.mx.MxRow.{MxRow};
ghost use Rattle.mx_table.specs.MxText.{Joins};

/// Two tables that join the same rows are equal, so that a text has one table at most.
pub fn one_table_joins_rows()
    ensures { (rows table other : List MxRow) → IsTrue (is_mx_table table) → IsTrue (is_mx_table other) → Joins table rows
        → Joins other rows → table ≡ other }
{}
