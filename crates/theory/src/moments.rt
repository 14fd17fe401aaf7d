// The moments at which each action starts. A moment is cast to be a member of a set, since there is no `u32::from` of a usize.
ghost use Rattle.std.specs.Prelude.{◌≡◌, ℕ, get_or};
ghost use Rattle.bitset.specs.Code.Members.{has};
ghost use Rattle.words.specs.Scan.{any};
ghost use Rattle.theory.specs.Trajectory.{is_start_of};

use words::{ACTIONS, start_action, start_moment};

// Returns for each action the set of the moments at which it starts.
pub fn start_moments(starts: &[u32]) -> [u64; ACTIONS]
    ensures { (a t : ℕ) → has (get_or result a 0) t ≡ any (is_start_of a t) starts.now }
{
    let mut moments = [0u64; ACTIONS];
    for &s in starts.iter().rev() {
        let a = start_action(s);
        let at = bitset::single(start_moment(s) as u32);
        moments[a] = bitset::union(moments[a], at);
    }
    moments
}
