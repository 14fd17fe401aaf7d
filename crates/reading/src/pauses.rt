// The pause of an end window: how long it may last, and that it is quiet (no action starts in it). Moments are cast to be members of sets, and back,
// since there is no `From` between usize and u32. A function asks that they are below 64: a type for them would be taken apart again each time.
ghost use Rattle.std.specs.Prelude.{◌≡◌, ◌<◌};
ghost use Rattle.reading.specs.Code.Quiet.{start_in, AllStarts, QuietUpto, pause_of, at_once};

// A pause of `least` to `most` moments, which no member of `started` may disturb.
#[derive(Clone, Copy)]
pub struct Pause {
    pub least: usize,
    pub most: usize,
    pub started: u64,
}

// The pause that an end window of this word asks for.
pub fn pause_of(word: u32, started: u64) -> Pause
    ensures { result ≡ pause_of word started }
{
    Pause {
        least: words::node_m(word),
        most: words::node_n(word),
        started,
    }
}

// No pause: what follows begins at once.
pub fn at_once() -> Pause
    ensures { result ≡ at_once }
{
    Pause {
        least: 0,
        most: 0,
        started: 0,
    }
}

// The moments at which some action starts, by the sets of each action's start moments.
pub fn all_starts(starts: &[u64]) -> u64
    ensures { AllStarts (start_in starts.now) result }
{
    starts
        .iter()
        .fold(0, |started, &moments| bitset::union(started, moments))
}

// The latest moment to which a pause from k on may last: a start at that moment itself is after the pause.
pub fn quiet_upto(pause: Pause, k: usize) -> usize
    requires { (k < 64) × (pause.most < 64) }
    ensures { QuietUpto pause k result }
{
    let limit = k + pause.most;
    let later = bitset::inter(pause.started, bitset::from(k as u32));
    if later == 0 {
        return limit;
    }
    let first = bitset::lowest(later) as usize;
    if first < limit {
        return first;
    }
    limit
}
