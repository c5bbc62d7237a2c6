// Iterators over the parts of a set.
ghost use Rattle.std.specs.Prelude.{◌≡◌, ◌<◌, ◌^◌};
ghost use Rattle.std.specs.Iterator.{YieldsFirst, item_count};
ghost use Rattle.sets.specs.Value.{width, num};

use crate::Set;

// Those not yet given; the lowest comes first.
#[derive(Drop)]
pub struct Iter {
    pub(crate) set: Set,
    ghost fits: { num set < 2 ^ width },
}

impl Iter {
    ghost use Rattle.sets.specs.Rest.{left_of};

    // The set of those not yet given.
    pub fn left(&self) -> Set
        ensures { num result ≡ left_of self.now }
    {
        self.set
    }
}

impl Iterator for Iter {
    ghost use Rattle.sets.specs.Rest.{rest};

    type Item = usize;

    ghost next_gives = { YieldsFirst rest };

    ghost remaining = { item_count rest };

    fn next(&mut self) -> Option<usize> {
        if crate::is_empty(self.set) {
            return None;
        }
        let q = crate::lowest(self.set);
        *self = crate::without(self.set, q).parts();
        Some(q)
    }
}

// The same, each part with the set of those behind it.
#[derive(Drop)]
pub struct WithRest {
    pub(crate) parts: Iter,
}

impl Iterator for WithRest {
    ghost use Rattle.sets.specs.Rest.{rest, GivesWithRest};

    type Item = (usize, Set);

    ghost next_gives = { λ s r t. GivesWithRest s.parts r t.parts };

    ghost remaining = { λ s. item_count rest s.parts };

    fn next(&mut self) -> Option<(usize, Set)> {
        let q = self.parts.next()?;
        Some((q, self.parts.left()))
    }
}
