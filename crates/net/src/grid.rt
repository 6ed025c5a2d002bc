ghost use Rattle.std.specs.Prelude.{ℕ, ◌<◌, MatchOption};
ghost use Rattle.net.specs.Grid.{IsFirst, NoneIn};

// The first cell that a test picks, row by row and in each row by column. Loops and no `find`, whose closure would have to
// be callable at every number, while a test is asked at cells inside only.
pub fn first_cell<F: Fn(usize, usize) -> bool>(
    rows: usize,
    columns: usize,
    picks: F,
) -> Option<(usize, usize)>
    requires { (r c : ℕ) → r < rows → c < columns → F.pre picks r c }
    ensures { MatchOption result (NoneIn (F.post picks) rows columns) (λ x. IsFirst (F.post picks) rows columns x.0 x.1) }
{
    for row in 0..rows {
        for column in 0..columns {
            if picks(row, column) {
                return Some((row, column));
            }
        }
    }
    None
}
