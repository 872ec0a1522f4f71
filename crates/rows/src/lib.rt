// Conversions and comparisons that were worked out by hand, proved of the definitions all together.
#![tactic(auto)]

ghost use Rattle.std.specs.Prelude.{◌≡◌, length};
ghost use Rattle.rows.specs.Rows.{Hold, table};

// How many rows the table has.
fn count() -> usize
    ensures { result ≡ length table }
{
    14
}

// How many rows are proved: all that the table has. That the definitions give every one of them is promised with it.
pub fn proved() -> usize
    ensures count { result ≡ length table }
    ensures hold { Hold table }
{
    count()
}
