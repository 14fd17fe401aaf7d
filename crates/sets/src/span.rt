// The moments for which the tables of a set are filled.
ghost use Rattle.std.specs.Prelude.{◌<◌, ◌≤◌, leb, ◌&&◌};
ghost use Rattle.bitset.specs.Code.Members.{IsSetOf};

// The moments from a to z, of all moments up to `last`.
#[derive(Clone, Copy)]
pub struct Span {
    pub a: u32,
    pub z: u32,
    pub last: u32,
    pub ghost forward: { a ≤ z },
    pub ghost within: { z ≤ last },
    pub ghost moments: { last < 64 },
}

// Up to so many moments no pairs are cut and no bounds filled, since a search is quicker without.
const FEW: u32 = 4;

impl Span {
    pub fn is_short(self) -> bool {
        self.z < self.a + FEW
    }

    // Its moments, as a set.
    pub fn all(self) -> u64
        ensures { IsSetOf result (λ k. leb self.a k && leb k self.z) }
    {
        bitset::between(self.a, self.z)
    }
}
