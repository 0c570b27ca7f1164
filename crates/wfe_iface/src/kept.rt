// What a seat keeps between its calls: the rows that stand at indexes from 2 on.
ghost use Rattle.std.specs.Prelude.{◌≡◌};
ghost use Rattle.wfe_core.specs.Rounds.{first_row as first_of};

// The first row that stands at these indexes.
#[inline(always)]
pub fn first_row(rows: &[Option<u32>]) -> Option<u32>
    ensures { result ≡ first_of rows.now }
{
    for row in rows {
        if row.is_some() {
            return *row;
        }
    }
    None
}
