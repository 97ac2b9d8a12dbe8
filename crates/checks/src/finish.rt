// For the crates above: what a call that may append does where room has run out.
ghost use Rattle.std.specs.Prelude.{◌≡◌};
ghost use Rattle.table.specs.Calls.{cleared};
ghost use Rattle.table.specs.Lent.{Lent};
ghost use Rattle.table.specs.Views.{slices_of};
ghost use Rattle.checks.specs.Checks.{OnlyRows};

use table::Table;

// Zeros all free rows.
pub fn free_rows(t: &mut Table<'_>)
    requires { Lent t.old.count (slices_of t.old) }
    ensures rows { slices_of t.new ≡ cleared t.old.count (slices_of t.old) }
    ensures count { t.new.count ≡ t.old.count }
    ensures only_rows { OnlyRows t.old t.new }
{
    let count = t.count;
    t.vs[count..].fill(0);
    t.ts[count..].fill(0);
    t.es[count..].fill(0);
}
