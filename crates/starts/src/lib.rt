// The rows on starts, 6 to 10, of a well-formed job; the crates `shifts` and `groups` have the code of rows 15 and 16. Each row's function returns
// its number at the first word that it fits. What a row needs of the job, of its tables and of the rows before it, it asks itself: docs/ names
// these functions, so that none may ask for a type that says more than it needs.
#![tactic(auto)]

ghost use Rattle.std.specs.Prelude.{◌≡◌, length};
ghost use Rattle.starts.specs.Rows.{rows_refusal};
ghost use Rattle.starts.specs.Code.Given.{time_rows, Tabled};
ghost use Rattle.answers.specs.Code.Ruled.{ruled};

mod clashes;
mod order;
mod times;
mod unmet;

use answers::Refusal;
pub use clashes::{first_clash, has_clash};
use history::Actions;
pub use order::wrong_word;
pub use times::{late_end, restart};
pub use unmet::{check_needs, has_unmet};

// Returns the first of rows 6 to 9 that fits, at the first word that it fits. Rows 15 (`shifts::outside_windows`), 16
// (`groups::over_limit`) and 10 (`check_needs`) come after them.
pub fn check_times(tables: &Actions<'_>, starts: &[u32]) -> Result<(), Refusal>
    requires { Tabled tables.now.job.now tables.now.durations.now tables.now.effects.now }
    ensures { result ≡ ruled (rows_refusal (time_rows tables.now.job.now starts.now) (length starts.now)) tt }
{
    wrong_word(tables.job, starts)?;
    late_end(tables, starts)?;
    restart(tables, starts)?;
    first_clash(tables, starts)
}
