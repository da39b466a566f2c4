// Two lent rows of a table of frontiers: the one that reaches the other.
#![tactic(auto)]

ghost use Rattle.std.specs.Prelude.{◌≡◌, nat_le};
ghost use Rattle.std.specs.List.{list_all, zip};
ghost use Rattle.frontier_rows.specs.Rows.{row_reaches, reaching_row, AsItLies};

// R71: the lent row that is at least the other in every column, the first where they are equal; else an empty part of
// the first, since `AsItLies` says where it starts.
pub fn reaching<'a>(first: &'a [u32], second: &'a [u32]) -> &'a [u32]
    ensures as_it_lies { AsItLies first.entry second.entry result }
    ensures row { result.now ≡ reaching_row first.now second.now }
{
    if row_reaches(first, second) {
        return first;
    }
    if row_reaches(second, first) {
        return second;
    }
    &first[..0]
}

// The first is at least the second in every place.
fn is_at_least(first: &[u32], second: &[u32]) -> bool
    ensures { result ≡ list_all (λ p. nat_le p.1 p.0) (zip first.now second.now) }
{
    first.iter().zip(second).all(|(a, b)| b <= a)
}

// The rows are equally long, and the first is at least the second in every place.
#[tactic(auto, using(crate::proofs::RowSteps::reaches_by_all))]
fn row_reaches(first: &[u32], second: &[u32]) -> bool
    ensures { result ≡ row_reaches first.now second.now }
{
    first.len() == second.len() && is_at_least(first, second)
}
