// Tables of the actions, made once for a job: durations, where their laws end, and effects by action and fluent.
// Actions, fluents and moments are plain numbers, and a function asks of those it takes that they are in range: a type for one would be taken
// apart again at each entry of a table. What a function needs of the job and the tables it asks itself: a type with all that is known of them would
// ask more, which `law_ends`, `laws_of` and `finish_of` may not, since docs/CONTRACTS.md names them.
ghost use Rattle.std.specs.Prelude.{◌≡◌, Bool, ℕ, ◌^◌, ◌<◌, ◌≤◌, IfSome, length, get_or, replicate};
ghost use Rattle.words.specs.Fields.{unknown, start_action};
ghost use Rattle.job.specs.Parts.{actions, laws_of};
ghost use Rattle.job.specs.Code.WellFormed.{WellFormed, Indexed};
ghost use Rattle.history.specs.Actions.{makes_fluent, law_value};
ghost use Rattle.history.specs.Code.Tables.{Durations, LawEnds, Ruled, Effects, tabled_finish};
ghost use Rattle.history.specs.Code.Stores.{Overlaid, Reads, RowStored, EachGiven};

use words::{
    ACTIONS, EFFECTS, FLUENTS, LAW, OPEN, actions_of, duration_of, fluent_of, made_value,
    makes_value, role_of, run_length, start_action, start_moment,
};

// Returns a table of what `entry` gives for each of the first `n` actions.
fn each_action<F: Fn(usize) -> usize>(n: usize, entry: F) -> [usize; ACTIONS]
    requires { (n ≤ 64) × ((a : ℕ) → a < n → F.pre entry a) }
    ensures { EachGiven n (F.post entry) result }
{
    let mut table = [0usize; ACTIONS];
    for a in 0..n {
        table[a] = entry(a);
    }
    table
}

// Returns the duration of each action.
pub fn durations(job: &[u32], places: &[usize; ACTIONS]) -> [usize; ACTIONS]
    requires { WellFormed job.now × Indexed job.now 3 places.now }
    ensures { Durations job.now result }
{
    each_action(actions_of(job[0]), |a| duration_of(job[places[a]]))
}

// The moment at which a start finishes.
pub fn finish_of(durations: &[usize; ACTIONS], s: u32) -> usize
    requires { get_or durations.now (start_action s) 0 < 64 }
    ensures { result ≡ tabled_finish durations.now s }
{
    start_moment(s) + durations[start_action(s)]
}

// Returns the position at which the laws of each action end. Each law is read once.
pub fn law_ends(job: &[u32], places: &[usize; ACTIONS]) -> [usize; ACTIONS]
    requires { WellFormed job.now × Indexed job.now 3 places.now }
    ensures { LawEnds job.now places.now result }
{
    each_action(actions_of(job[0]), |a| {
        let from = places[a] + 1;
        from + run_length(job, from, LAW)
    })
}

// Returns the laws of action `a`: they stand directly after its own word, up to the end that the table has for it.
pub fn laws_of<'a>(
    job: &'a [u32],
    places: &[usize; ACTIONS],
    ends: &[usize; ACTIONS],
    a: usize,
) -> &'a [u32]
    requires { Ruled job.now places.now ends.now × (a < actions job.now) }
    ensures { result.now ≡ laws_of job.now a }
{
    let from = places[a] + 1;
    let end = ends[a];
    &job[from..end]
}

// Returns the values that the words give to fluents, by what `given` reads from a word, and open where none gives one: from the last word to
// the first, so that the first on a fluent prevails.
pub(crate) fn row_of<F: Fn(u32) -> Option<(usize, u8)>>(words: &[u32], given: F) -> [u8; FLUENTS]
    requires { F.IsAlwaysCallable given × ((w : ℕ) (r : _) → w < 2 ^ 32 → F.post given w r → IfSome r (λ p. p.0 < 256)) }
    ensures { (test : ℕ → ℕ → Bool) (gives : ℕ → ℕ → ℕ) → ((w : ℕ) (r : _) → w < 2 ^ 32 → F.post given w r → Reads test gives w r)
        → Overlaid 256 test gives (replicate 256 unknown) words.now result }
{
    let mut row = [OPEN; FLUENTS];
    for &w in words.iter().rev() {
        if let Some((f, value)) = given(w) {
            row[f] = value;
        }
    }
    row
}

// The values that an action with these laws makes of the fluents.
fn effects_row(head: u32, laws: &[u32]) -> [u8; FLUENTS]
    ensures { Overlaid 256 (makes_fluent head) (λ f. law_value head) (replicate 256 unknown) laws.now result }
{
    row_of(laws, |w| {
        let role = role_of(head, w);
        makes_value(role).then(|| (fluent_of(head, w), made_value(role)))
    })
}

// Stores row `a` of a table.
pub(crate) fn store_row(row: &[u8; FLUENTS], a: usize, table: &mut [u8; EFFECTS])
    requires { (a < 64) × (length table.old ≡ 16384) }
    ensures { RowStored row.now a 256 table.old table.new }
{
    table[a * FLUENTS..(a + 1) * FLUENTS].copy_from_slice(row);
}

// Returns the value that each action makes of each fluent.
pub fn effects(job: &[u32], places: &[usize; ACTIONS], ends: &[usize; ACTIONS]) -> [u8; EFFECTS]
    requires { Ruled job.now places.now ends.now }
    ensures { Effects job.now result }
{
    let head = job[0];
    let mut table = [OPEN; EFFECTS];
    for a in 0..actions_of(head) {
        let row = effects_row(head, laws_of(job, places, ends, a));
        store_row(&row, a, &mut table);
    }
    table
}
