//! Stamps and their order.
ghost use Rattle.std.specs.Prelude.{◌≡◌};
ghost use Rattle.register.specs.Stamps.{below, same_stamp, higher, lowest};
ghost use Rattle.node.specs.Stamped.{stamp as stamp_of};

/// A count, and the number of the client that took it. Stamps are ordered by count, then by client.
#[derive(Clone, Copy, PartialEq, Eq, PartialOrd, Ord, Default, Debug)]
pub struct Stamp {
    pub count: u32,
    pub client: u8,
}

impl Stamp {
    /// The lowest stamp.
    pub fn lowest() -> Stamp
        ensures { stamp_of result ≡ lowest }
    {
        Stamp::default()
    }

    /// Whether the stamp is below another.
    #[tactic(auto, unfolding(register::specs::Stamps::below))]
    pub fn is_below(self, other: Stamp) -> bool
        ensures { result ≡ below (stamp_of self) (stamp_of other) }
    {
        self < other
    }

    /// Whether two stamps are one.
    #[tactic(auto, unfolding(register::specs::Stamps::same_stamp))]
    pub fn is(self, other: Stamp) -> bool
        ensures { result ≡ same_stamp (stamp_of self) (stamp_of other) }
    {
        self == other
    }

    /// The higher of two stamps.
    #[tactic(auto, unfolding(register::specs::Stamps::below))]
    pub fn higher(self, other: Stamp) -> Stamp
        ensures { stamp_of result ≡ higher (stamp_of self) (stamp_of other) }
    {
        self.max(other)
    }
}

/// A record, or a piece in the first w bytes, under its stamp.
#[derive(Clone, Copy)]
pub struct Stamped {
    pub stamp: Stamp,
    pub bytes: [u8; 24],
}
