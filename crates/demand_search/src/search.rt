ghost use Rattle.std.specs.Prelude.{◌<◌, ◌≤◌, ℕ, IfSome, IfNone};
ghost use Rattle.demand_search.specs.Search.{IsFirstBad, AllMeet};

use crate::{Demand, TABLES};

/// The first row that doesn't meet the demand, as its table and its number, counted from 1, or 0 for the table itself; None
/// exactly where all rows meet it. Looks at each row once, and takes no memory.
pub fn first_bad<D: Demand>(demand: &D) -> Option<(u8, u32)>
    ensures bad { IfSome result (λ at. IsFirstBad (D.meets demand.now) at.0 at.1) }
    ensures none { IfNone result (AllMeet (D.meets demand.now)) }
{
    demand.others_meet();
    for table in 0..TABLES {
        if demand.asks(table) {
            if let Some(row) = first_bad_of(demand, table) {
                return Some((table, row));
            }
        }
    }
    None
}

/// The first row of one table that doesn't meet the demand, where all rows of the tables before it do.
fn first_bad_of<D: Demand>(demand: &D, table: u8) -> Option<u32>
    requires { (t r : ℕ) → t < table → D.meets demand.now t r }
    ensures bad { IfSome result (λ row. IsFirstBad (D.meets demand.now) table row) }
    ensures none { IfNone result ((row : ℕ) → D.meets demand.now table row) }
{
    demand.others_meet();
    for row in 0..=demand.count(table) {
        if !demand.row_meets(table, row) {
            return Some(row);
        }
    }
    None
}
