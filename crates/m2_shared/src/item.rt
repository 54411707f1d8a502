//! What belongs to an owner.

/// What is handed from one holder to another and belongs to one of them.
pub trait Item {
    /// Whom values belong to.
    type Owner;

    /// Whether a value belongs to an owner. For contracts alone.
    ghost belongs: { Self.Owner → Self → Type 0 };
}
