// How edges are used by the ways that are taken, as the two lowest bits of their words tell it.
ghost use Rattle.std.specs.Prelude.{◌≡◌, ◌%◌, leb};
ghost use Rattle.routes.specs.Inside.Lists.{bits_of, used_along};
ghost use Rattle.routes.specs.Inside.Walks.{taken_use, mates_use};

// How an edge is used: neither it nor a mate of it is, or a mate but not the edge is, or it is, from its left end or from its right. Which end
// a step is from is told by a bool, that it is the left one, since it comes from a comparison of vertices, and the definitions tell it so.
#[derive(Clone, Copy, PartialEq, Eq)]
pub(crate) enum Use {
    Free,
    MateUsed,
    FromLeft,
    FromRight,
}

impl From<Use> for u32 {
    ghost from_gives = { λ used bits. bits ≡ bits_of used };

    fn from(used: Use) -> u32 {
        match used {
            Use::Free => 0,
            Use::MateUsed => 1,
            Use::FromLeft => 2,
            Use::FromRight => 3,
        }
    }
}

impl Use {
    // The use that an edge's word tells.
    pub(crate) fn in_word(word: u32) -> Use
        ensures { bits_of result ≡ word % 4 }
    {
        match word % 4 {
            0 => Use::Free,
            1 => Use::MateUsed,
            2 => Use::FromLeft,
            _ => Use::FromRight,
        }
    }

    // Whether the edge itself is used.
    pub(crate) fn is_own(self) -> bool
        ensures { result ≡ leb 2 (bits_of self) }
    {
        match self {
            Use::Free | Use::MateUsed => false,
            Use::FromLeft | Use::FromRight => true,
        }
    }

    // The use of the edge when a step along it is taken, from its left end or from its right.
    #[tactic(auto, unfolding(crate::specs::Inside::Walks::taken_use, crate::specs::Inside::Lists::used_along))]
    pub(crate) fn after_step(self, left: bool) -> Use
        ensures { result ≡ taken_use self left }
    {
        match self {
            Use::Free if left => Use::FromLeft,
            Use::Free => Use::FromRight,
            Use::MateUsed | Use::FromLeft | Use::FromRight => Use::Free,
        }
    }

    // That of its other mates then.
    #[tactic(auto, unfolding(crate::specs::Inside::Walks::mates_use))]
    pub(crate) fn of_mates_after_step(self) -> Use
        ensures { result ≡ mates_use self }
    {
        match self {
            Use::Free => Use::MateUsed,
            Use::MateUsed | Use::FromLeft | Use::FromRight => Use::Free,
        }
    }
}
