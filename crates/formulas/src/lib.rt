// The values of all formulas at all moments, as a table, by the history of a plan.
// Formulas and moments are numbers below 64: each function asks it of them, since a type for such a number would be taken apart at every index.
#![tactic(auto)]

ghost use Rattle.std.specs.Prelude.{List, ◌≡◌, ℕ, ◌+◌, ◌*◌, ◌<◌, ◌≤◌, length};
ghost use Rattle.history.specs.Values.{value_at};
ghost use Rattle.history.specs.Code.Tables.{History};
ghost use Rattle.formulas.specs.Values.{and_table, or_table, by_table, ago, held_for, form_value};
ghost use Rattle.formulas.specs.Code.Table.{Connectives, tabled, tabulated, FormReady, HeldReady, Grounds, ColumnsBefore, FormulaTable};
ghost use Rattle.formulas.specs.Code.Lent.{GroundsOf, FillableBy};
ghost use Rattle.job.specs.Parts.{head_word};

use words::{
    FAILS, FLUENTS, FORMULA_VALUES, HOLDS, MOMENTS, OPEN, STATES, atom_fluent, form_of, forms,
    formula_x, formula_y, last_of,
};

// The tables of 'and' and 'or' have an entry for each two values: how many values there are, and how many entries.
pub const VALUES: usize = 3;

pub const ENTRIES: usize = VALUES * VALUES;

// 'And' is the lesser and 'or' the greater in the order fails < open < holds.
pub const AND: [u8; ENTRIES] = [FAILS, FAILS, FAILS, FAILS, OPEN, OPEN, FAILS, OPEN, HOLDS];

pub const OR: [u8; ENTRIES] = [FAILS, OPEN, HOLDS, OPEN, OPEN, HOLDS, HOLDS, HOLDS, HOLDS];

fn by_table(table: &[u8; ENTRIES], a: u8, b: u8) -> u8
    requires { (a ≤ 2) × (b ≤ 2) }
    ensures { result ≡ by_table table.now a b }
{
    table[usize::from(a) * VALUES + usize::from(b)]
}

// The value of formula `x` at `k` moments before `t`: open before moment 0.
fn ago(values: &[u8; FORMULA_VALUES], x: usize, t: usize, k: usize) -> u8
    requires { (x < 64) × (t < 64) }
    ensures { result ≡ ago (tabulated values.now x) t k }
{
    if t < k {
        return OPEN;
    }
    values[x * MOMENTS + (t - k)]
}

// The value of 'formula `x` has held for `y` moments' at moment `t`: 'and' over the values of `x`, oldest first.
fn held_for(and: &[u8; ENTRIES], values: &[u8; FORMULA_VALUES], x: usize, y: usize, t: usize) -> u8
    requires { HeldReady and.now values.now x t }
    ensures { result ≡ held_for and.now (tabulated values.now x) y t }
{
    let mut r = ago(values, x, t, y);
    for k in (0..y).rev() {
        r = by_table(and, r, ago(values, x, t, k));
    }
    r
}

// A job's formulas, lent with what their values are found from: the tables of 'and' and 'or', where the formulas stand in the job, and the
// history of a plan.
#[derive(Clone, Copy)]
pub struct Formulas<'a> {
    pub and: &'a [u8; ENTRIES],
    pub or: &'a [u8; ENTRIES],
    pub job: &'a [u32],
    pub places: &'a [usize],
    pub history: &'a [u8; STATES],
}

impl Formulas<'_> {
    // The value of the formula word `w` at moment `t`, by the history and the table so far.
    fn form_value(&self, w: u32, values: &[u8; FORMULA_VALUES], t: usize) -> u8
        requires ready { FormReady self.now.and.now values.now t }
        requires some { 0 < length self.now.job.now }
        ensures { result ≡ form_value self.now.and.now self.now.or.now (head_word self.now.job.now) w
            (tabled self.now.history.now) (tabulated values.now) t }
    {
        let form = form_of(w);
        let x = formula_x(w);
        let y = formula_y(w);
        match form {
            forms::ALWAYS => HOLDS,
            forms::FLUENT => self.history[t * FLUENTS + atom_fluent(self.job[0], w)],
            forms::NOT => HOLDS - values[x * MOMENTS + t],
            forms::AND => by_table(self.and, values[x * MOMENTS + t], values[y * MOMENTS + t]),
            forms::OR => by_table(self.or, values[x * MOMENTS + t], values[y * MOMENTS + t]),
            _ => held_for(self.and, values, x, y, t),
        }
    }

    // Fills the column of moment `t`, formula by formula.
    fn fill_moment(&self, t: usize, values: &mut [u8; FORMULA_VALUES])
        requires { FillableBy self.now t values.old }
        ensures { ColumnsBefore self.now.and.now self.now.or.now self.now.job.now (tabled self.now.history.now) (t + 1) values.new }
    {
        for (k, &at) in self.places.iter().enumerate() {
            let value = self.form_value(self.job[at], values, t);
            values[k * MOMENTS + t] = value;
        }
    }
}

// The table of all formulas: entry k * 64 + t has the value of formula k at moment t.
pub fn formula_values(formulas: &Formulas<'_>) -> [u8; FORMULA_VALUES]
    requires { Connectives formulas.now.and.now formulas.now.or.now × GroundsOf formulas.now }
    ensures { (starts : List ℕ) → History formulas.now.job.now starts formulas.now.history.now
        → FormulaTable formulas.now.and.now formulas.now.or.now formulas.now.job.now (value_at formulas.now.job.now starts) result }
{
    let mut values = [FAILS; FORMULA_VALUES];
    for t in 0..=last_of(formulas.job[0]) {
        formulas.fill_moment(t, &mut values);
    }
    values
}

// The table of all formulas by the two constant tables.
pub fn standard_values(
    job: &[u32],
    places: &[usize],
    history: &[u8; STATES],
) -> [u8; FORMULA_VALUES]
    requires { Grounds job.now places.now (length places.now) history.now }
    ensures { (starts : List ℕ) → History job.now starts history.now
        → FormulaTable and_table or_table job.now (value_at job.now starts) result }
{
    formula_values(&Formulas {
        and: &AND,
        or: &OR,
        job,
        places,
        history,
    })
}
