//! Where messages go.
ghost use Rattle.std.specs.Prelude.{◌≡◌};
ghost use Rattle.net_bag.specs.Route.{takes as takes_of};

use crate::parcel::Parcel;

/// A way that messages take.
#[derive(Clone, Copy, Debug)]
pub(crate) enum Route {
    /// Over a pair of nodes, in either direction.
    Over(u8, u8),
    /// To a node.
    To(u8),
}

impl Route {
    /// Whether a message takes it.
    pub(crate) fn takes(self, parcel: &Parcel) -> bool
        ensures { result ≡ takes_of self parcel.now }
    {
        match self {
            Route::Over(a, b) => parcel.goes_over(a, b),
            Route::To(node) => parcel.goes_to(node),
        }
    }
}
