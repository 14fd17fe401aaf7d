// Lists written to a buffer: as they are, and with one word put in at its place.
ghost use Rattle.std.specs.Prelude.{◌≡◌, ◌+◌, ◌<◌, ◌≤◌, length};
ghost use Rattle.std.proofs.lemmas.List.Edits.{sets};
ghost use Rattle.words.specs.Scan.{take_while};
ghost use Rattle.words.specs.Lists.{Pairs, insert};
ghost use Rattle.words.specs.Code.Place.{not_above};

// How many words of an ascending list are not above `w`: from its end, near which a new start stands.
fn place_of(list: &[u32], w: u32) -> usize
    requires { Pairs (λ s s'. s < s') list.now }
    ensures { (result ≡ length (take_while (not_above w) list.now)) × (result ≤ length list.now) }
{
    list.iter().rposition(|&s| s <= w).map_or(0, |i| i + 1)
}

// Writes the list to the buffer from position `at` on.
pub fn copy_words(list: &[u32], at: usize, buffer: &mut [u32])
    requires { at + length list.now ≤ length buffer.old }
    ensures { buffer.new ≡ sets buffer.old at list.now }
{
    buffer[at..at + list.len()].copy_from_slice(list);
}

// Writes the ascending list with `w` put in to the front of the buffer.
pub fn insert_word(list: &[u32], w: u32, buffer: &mut [u32])
    requires { Pairs (λ s s'. s < s') list.now × (length list.now < length buffer.old) }
    ensures { buffer.new ≡ sets buffer.old 0 (insert w list.now) }
{
    let i = place_of(list, w);
    copy_words(&list[..i], 0, buffer);
    buffer[i] = w;
    copy_words(&list[i..], i + 1, buffer);
}
