// What the words of kinds 2, 4 and 14 list, as numbers, and the set of what a run of such words has listed.
ghost use Rattle.std.specs.Prelude.{◌≡◌, ◌<◌, length};
ghost use Rattle.job.specs.Code.Entries.{entry_of, has_entry, Stored};

use words::{ACTIONS, FLUENTS, GROUP_MEMBER, KNOWN, LAW};

// The numbers are below 1,024: a group's number has four bits and an action's six; two pairs of roles have 256 fluents each. The set is kept
// in rows of 64 numbers, one bit each. Indexes are usize, and a set's members u32: numbers are cast, since there is no `From` between the two.
const ENTRIES: usize = 1024;

const ROW: usize = 64;

pub const ENTRY_ROWS: usize = ENTRIES / ROW;

// A law's roles are two pairs: 0 and 1 need a value, 2 and 3 make one.
const ROLES_OF_PAIR: u32 = 2;

// Returns what `w` lists as a number: an action in a group, or a fluent in a pair of roles.
fn entry_of(head: u32, w: u32) -> usize
    ensures { (result ≡ entry_of head w) × (result < 1024) }
{
    if words::kind_of(w) == GROUP_MEMBER {
        return words::group_number(w) * ACTIONS + words::group_action(w);
    }
    let pair = words::role_of(head, w) / ROLES_OF_PAIR;
    pair as usize * FLUENTS + words::fluent_of(head, w)
}

// Whether the set has what `w` lists.
pub fn is_listed(listed: &[u64; ENTRY_ROWS], head: u32, w: u32) -> bool
    ensures { result ≡ has_entry listed.now (entry_of head w) }
{
    let n = entry_of(head, w);
    bitset::has(listed[n / ROW], (n % ROW) as u32)
}

// Adds what `w` lists to the set. A word of a kind that lists nothing empties the set, because it ends the run.
pub fn list_word(head: u32, w: u32, listed: &mut [u64; ENTRY_ROWS])
    requires { length listed.old ≡ 16 }
    ensures { Stored head w listed.old listed.new }
{
    match words::kind_of(w) {
        KNOWN | LAW | GROUP_MEMBER => {
            let n = entry_of(head, w);
            let row = n / ROW;
            listed[row] = bitset::union(bitset::single((n % ROW) as u32), listed[row]);
        }
        _ => {
            *listed = [0u64; ENTRY_ROWS];
        }
    }
}
