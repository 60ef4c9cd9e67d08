//! What a type of ranges has to offer, so that one set of ranges serves names of every kind.
ghost use Rattle.std.specs.Prelude.{◌≡◌, nat_le};
ghost use Rattle.catalogue_join.specs.Span.{Shape, IsShape, apart};

/// A range of adjacent names, its first and its last name included.
pub trait Span: Copy {
    ghost shape: { Shape Self };

    /// Whether this range ends, and leaves a name free, before `other` begins.
    fn ends_before(self, other: Self) -> bool
        ensures { result ≡ apart shape self other };

    /// Whether this range begins no later than `other` does.
    fn begins_by(self, other: Self) -> bool
        ensures { result ≡ nat_le (shape.low self) (shape.low other) };

    /// Whether this range ends no later than `other` does.
    fn ends_by(self, other: Self) -> bool
        ensures { result ≡ nat_le (shape.high self) (shape.high other) };

    /// Whether this range ends no earlier than `other` begins.
    fn reaches(self, other: Self) -> bool
        ensures { result ≡ nat_le (shape.low other) (shape.high self) };

    /// The range from the earlier of the two beginnings to the later of the two ends, for two that touch.
    fn hull(self, other: Self) -> Self
        ensures { result ≡ shape.hull self other };

    ghost law: { IsShape shape };
}
