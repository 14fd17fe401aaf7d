// The two files of planread: their size, their bytes as words, and where the starts of a plan end.
ghost use Rattle.std.specs.Prelude.{◌≡◌, ◌≤◌, ◌/◌, length};
ghost use Rattle.text.specs.Files.{sized, starts_of};
ghost use Rattle.text.specs.Code.Decoded.{Decoded};

// 32 KiB, the most that a file may have.
pub const MAX_BYTES: usize = 32768;

pub fn is_sized(n: usize) -> bool
    ensures { result ≡ sized n }
{
    n <= MAX_BYTES && n % 4 == 0
}

// How many words of a plan are starts: those before the first that is not of kind 9.
pub fn starts_length(plan: &[u32]) -> usize
    ensures { result ≡ length (starts_of plan.now) }
{
    words::run_length(plan, 0, words::START)
}

// Writes the words of bytes, four bytes each and the lowest first, to the front of out, and answers how many.
// It does not answer them as a slice, so that its contract can say that the rest of out stays as it was.
pub fn decode(bytes: &[u8], out: &mut [u32]) -> usize
    requires { length bytes.now / 4 ≤ length out.old }
    ensures { Decoded bytes.now out.old out.new result }
{
    let (fours, _) = bytes.as_chunks::<4>();
    for (i, four) in fours.iter().enumerate() {
        out[i] = u32::from_le_bytes(*four);
    }
    fours.len()
}
