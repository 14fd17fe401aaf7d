// The table of ends, filled node by node, children before parents. Moments are cast to be members of sets, since there is no `u32::from` of a usize.
// A function asks that a node is below 64: a type for it would be taken apart again at each entry of the table.
ghost use Rattle.std.specs.Prelude.{◌≡◌, ◌<◌, length, get_or};
ghost use Rattle.model.specs.Code.Table.{end_in};
ghost use Rattle.model.specs.Forms.{Set, form_at};
ghost use Rattle.model.specs.Code.Arrays.{alone, procedure_in, trajectory_in};
ghost use Rattle.sets.specs.Code.Rows.{SetReady, SetRows};
ghost use Rattle.reading.specs.Forms.{set_at};
ghost use Rattle.reading.specs.Code.Forms.{Readable};
ghost use Rattle.reading.specs.Code.Quiet.{start_in, AllStarts};
ghost use Rattle.reading.specs.Code.Table.{NodeReady, NodeRows, Blank, Found, Tabulated, Entry};

use model::Arrays;
use words::MOMENTS;
use words::forms::{ACT, END_WINDOW, RESERVED, TASK_SET};

// Fills the rows of node p, which is no task set, begins descending: a loop's row rests on its later rows.
fn fill_rows(word: u32, arrays: &Arrays, started: u64, p: usize, table: &mut [u64])
    requires { NodeReady (alone word) (trajectory_in arrays.now) started p table.old × (form_at (alone word) p ≡ Set → ⊥) }
    ensures { NodeRows (alone word) (trajectory_in arrays.now) p table.old table.new }
{
    for b in (0..=arrays.last).rev() {
        table[p * MOMENTS + b] = crate::rows::row(word, arrays, started, table, p, b);
    }
}

// Fills the rows of node p, a task set: all together.
fn fill_set(words: &[u32], arrays: &Arrays, p: usize, table: &mut [u64])
    requires p_bound { (p < 64) × (get_or arrays.now.places p 0 < length words.now) }
    requires set_ready { SetReady (set_at (procedure_in words.now arrays.now) (trajectory_in arrays.now) p) p (length table.old) }
    ensures { SetRows (set_at (procedure_in words.now arrays.now) (trajectory_in arrays.now) p) p table.old table.new }
{
    let set = model::set_words(words, arrays.places[p]);
    sets::rows::set_rows(set, arrays, p, table);
}

// Fills the rows of node p.
fn fill_node(words: &[u32], arrays: &Arrays, started: u64, p: usize, table: &mut [u64])
    requires p_bound { (p < 64) × (get_or arrays.now.places p 0 < length words.now) }
    requires node_ready { NodeReady (procedure_in words.now arrays.now) (trajectory_in arrays.now) started p table.old }
    ensures { NodeRows (procedure_in words.now arrays.now) (trajectory_in arrays.now) p table.old table.new }
{
    let word = words[arrays.places[p]];
    match words::form_of(word) {
        // Every other form has a row for each begin, by the match of `row`.
        ACT..=END_WINDOW | RESERVED.. => fill_rows(word, arrays, started, p, table),
        // The rows of a task set are filled together.
        TASK_SET => fill_set(words, arrays, p, table),
    }
}

// Fills an empty table with the ends of all readings: node p has the end e from b exactly when (p, b, e) has a reading.
pub fn fill_table(words: &[u32], arrays: &Arrays, started: u64, table: &mut [u64])
    requires { Readable (procedure_in words.now arrays.now) (trajectory_in arrays.now) (length words.now) arrays.now.places × Blank table.old × AllStarts (start_in arrays.now.starts) started }
    ensures { Found (procedure_in words.now arrays.now) (trajectory_in arrays.now) table.new }
{
    for p in 0..arrays.count {
        fill_node(words, arrays, started, p, table);
    }
}

// Fills an empty table, and counts the triples that have a reading.
pub fn tabulate(words: &[u32], arrays: &Arrays, started: u64, table: &mut [u64]) -> u64
    requires { Readable (procedure_in words.now arrays.now) (trajectory_in arrays.now) (length words.now) arrays.now.places × Blank table.old × AllStarts (start_in arrays.now.starts) started }
    ensures { Tabulated (procedure_in words.now arrays.now) (trajectory_in arrays.now) table.new result }
{
    fill_table(words, arrays, started, table);
    bitset::count_all(table)
}

// Whether the table says that node p has the end e from b.
pub fn has_end(table: &[u64], p: usize, b: usize, e: usize) -> bool
    requires { Entry table.now p b e }
    ensures { result ≡ end_in table.now p b e }
{
    bitset::has(table[p * MOMENTS + b], e as u32)
}
