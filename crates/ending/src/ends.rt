// The ends that the conditions of a set leave to members whose begins are fixed.
// A function asks that begins are below 64: they come as members of sets, and a type for them would be taken apart again at each table entry.
// A begin that is an index is cast, since there is no `usize::from` of a u32.
ghost use Rattle.std.specs.Prelude.{◌≡◌, ◌↔◌, ℕ, ◌<◌, ◌≤◌, length};
ghost use Rattle.bitset.specs.Code.Members.{has, In};
ghost use Rattle.model.specs.Forms.{condition_number};
ghost use Rattle.covering.specs.Code.Cover.{entry_at};
ghost use Rattle.ending.specs.Code.Ends.{asked, partner, EndAt, Narrowable, Narrowed};
ghost use Rattle.keeping.specs.Code.Tables.{pair_at};

use keeping::{Tables, pair_at};
use words::forms::{BEGIN_AFTER_BEGIN, HOLDS_AFTER, HOLDS_BEFORE};
use words::{MEMBERS, MOMENTS};

// The member whose begin a condition's mask is taken at: j, or i where the condition asks nothing of j.
pub fn partner(form: u32, i: usize, j: usize) -> usize
    ensures { result ≡ partner (condition_number form) i j }
{
    match form {
        HOLDS_BEFORE => i,
        HOLDS_AFTER => i,
        _ => j,
    }
}

// All moments, or none.
fn whole(all: bool) -> u64
    ensures { (e : ℕ) → e < 64 → has result e ≡ all }
{
    if all { bitset::from(0) } else { 0 }
}

// The ends of member i, begun at x, that a condition of this form allows, where mask m has the moments that it allows.
fn end_mask(form: u32, m: u64, x: u32) -> u64
    requires { x < 64 }
    ensures { (e : ℕ) → e < 64 → In result e ↔ In m (asked (condition_number form) x e) }
{
    match form {
        BEGIN_AFTER_BEGIN => whole(bitset::has(m, x)),
        HOLDS_BEFORE => whole(bitset::has(m, x)),
        _ => m,
    }
}

// The ends of each member in its own row.
fn own_ends(tables: &Tables, begins: [u32; MEMBERS]) -> [u64; MEMBERS]
    requires { (i : ℕ) → entry_at begins i < 64 }
    ensures { ((i : ℕ) → i < tables.now.count → entry_at result i ≡ pair_at tables.now.ends i i (entry_at begins i)) × ((i e : ℕ) → In (entry_at result i) e → e < 64) }
{
    let mut r = [0u64; MEMBERS];
    for i in 0..tables.count {
        r[i] = pair_at(&tables.ends, i, i, begins[i]);
    }
    r
}

// The masks with all conditions.
fn narrow(tables: &Tables, begins: [u32; MEMBERS], ends: [u64; MEMBERS]) -> [u64; MEMBERS]
    requires { Narrowable begins ends }
    ensures { Narrowed tables.now begins ends (length tables.now.conditions.now) result }
{
    let mut next = ends;
    for (c, &w) in tables.conditions.iter().enumerate() {
        let form = words::form_of(w);
        let i = words::condition_i(w);
        let j = partner(form, i, words::condition_j(w));
        let met = tables.allow[c * MOMENTS + begins[j] as usize];
        let mask = end_mask(form, met, begins[i]);
        next[i] = bitset::inter(next[i], mask);
    }
    next
}

// The ends that each member may have with these begins.
pub fn ends_at(tables: &Tables, begins: [u32; MEMBERS]) -> [u64; MEMBERS]
    requires { (i : ℕ) → entry_at begins i < 64 }
    ensures { (i e : ℕ) → i < tables.now.count → In (entry_at result i) e ↔ EndAt tables.now (entry_at begins) i e }
{
    narrow(tables, begins, own_ends(tables, begins))
}
