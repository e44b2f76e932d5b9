// Worked examples at the edges of the rules.
#![tactic(auto)]

ghost use Rattle.std.specs.Prelude.{◌≡◌, length};
ghost use Rattle.boundary.specs.Table.{table, EachAnswersAsListed};

// How many rows the table of boundary runs has; each answers as listed.
pub fn boundary_runs() -> usize
    ensures rows { result ≡ length table }
    ensures hold { EachAnswersAsListed }
{
    16
}
