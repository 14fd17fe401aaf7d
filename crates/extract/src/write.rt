// The writers: a node's own word, and then its parts, each by a call for a lower node. Each node is named as a child once, so that nothing
// is walked twice. The buffer is lent with a position, since the contracts speak of all its words, also of those that stay as they were.
ghost use Rattle.std.specs.Prelude.{◌≡◌, length};
ghost use Rattle.model.specs.Forms.{While, form_at};
ghost use Rattle.extract.specs.Code.Source.{Unseen, procedure_by, trajectory_by};
ghost use Rattle.extract.specs.Code.Contract.{Full, Rest, WritableBy, ReadingWritten};

use crate::search::TwoNodes;
use crate::{Source, parts, search};
use model::Triple;
use reading::pauses::at_once;
use words::forms::WHILE;

// Writes a reading of the triple into the buffer from `at` on, and returns the place after it.
#[cycle(write_parts_write_passes_write_reading)]
pub fn write_reading(source: &Source, triple: Triple, at: usize, buffer: &mut [u32]) -> usize
    requires { (u : Unseen) × WritableBy Full source.now triple at (length buffer.old) u }
    ensures { (u : Unseen) → WritableBy Full source.now triple at (length buffer.old) u → ReadingWritten (Full (procedure_by source.now u) (trajectory_by source.now u) triple) buffer.old at buffer.new result }
{
    let p = triple.node;
    let b = triple.begin;
    let e = triple.end;
    buffer[at] = words::reading_word(p, b, e);
    let place = source.arrays.places[p];
    if words::form_of(source.words[place]) == WHILE {
        return write_passes(source, triple, at + 1, buffer);
    }
    write_parts(source, triple, at + 1, buffer)
}

// Writes the parts of the node, which is no loop.
#[cycle(write_parts_write_passes_write_reading)]
fn write_parts(source: &Source, triple: Triple, at: usize, buffer: &mut [u32]) -> usize
    requires { (u : Unseen) × WritableBy Rest source.now triple at (length buffer.old) u × (form_at (procedure_by source.now u) triple.node ≡ While → ⊥) }
    ensures { (u : Unseen) → WritableBy Rest source.now triple at (length buffer.old) u → (form_at (procedure_by source.now u) triple.node ≡ While → ⊥) → ReadingWritten (Rest (procedure_by source.now u) (trajectory_by source.now u) triple) buffer.old at buffer.new result }
{
    let parts = parts::choose_parts(source, triple);
    let mut end = at;
    for part in &parts.triples[..parts.count] {
        end = write_reading(source, *part, end, buffer);
    }
    end
}

// Writes the passes of the node, which is a loop, one after the other.
#[cycle(write_parts_write_passes_write_reading)]
fn write_passes(source: &Source, triple: Triple, at: usize, buffer: &mut [u32]) -> usize
    requires { (u : Unseen) × WritableBy Rest source.now triple at (length buffer.old) u × (form_at (procedure_by source.now u) triple.node ≡ While) }
    ensures { (u : Unseen) → WritableBy Rest source.now triple at (length buffer.old) u → form_at (procedure_by source.now u) triple.node ≡ While → ReadingWritten (Rest (procedure_by source.now u) (trajectory_by source.now u) triple) buffer.old at buffer.new result }
{
    let p = triple.node;
    let e = triple.end;
    let place = source.arrays.places[p];
    let y = words::node_y(source.words[place]);
    let mut m = triple.begin;
    let mut end = at;
    // a `while`, since each pass begins where the one before ended, which `cut` finds
    while m < e {
        let two = TwoNodes {
            x: y,
            y: p,
            begin: m,
            end: e,
        };
        let (k, _) = search::cut(source.table, two, at_once(), m + 1);
        let pass = Triple {
            node: y,
            begin: m,
            end: k,
        };
        end = write_reading(source, pass, end, buffer);
        m = k;
    }
    end
}
